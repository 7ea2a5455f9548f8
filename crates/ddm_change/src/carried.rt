// A payload where it lies: as it is, or cut into a frame's segments. A payload byte's place is found by one division.
ghost use Rattle.std.specs.Prelude.{◌≡◌, ◌+◌, ◌≤◌, ◌<◌, length, take, drop};
ghost use Rattle.ddm_change.specs.inner.Carried.{SoundCarriage, carried, passed, place_of, uncut, piece_of};

use super::Carriage;
use ddm_length::Payload;
use dss_head::{DSS_CONTINUATION_HEADER_LEN, DSS_CONTINUATION_PAYLOAD_LEN, DSS_FIRST_PAYLOAD_LEN};

// The payload that a run carries: the run, and how it carries it. It has all its segments.
#[derive(Clone, Copy)]
pub(crate) struct Carried<'a> {
    pub run: &'a [u8],
    pub by: Carriage,
    ghost sound: { SoundCarriage by run.now },
}

// How many payload bytes there are from one on up to the next cut.
pub(crate) fn uncut_from(i: usize) -> usize
    ensures { result ≡ uncut i }
{
    if i < DSS_FIRST_PAYLOAD_LEN {
        return DSS_FIRST_PAYLOAD_LEN - i;
    }
    DSS_CONTINUATION_PAYLOAD_LEN - (i - DSS_FIRST_PAYLOAD_LEN) % DSS_CONTINUATION_PAYLOAD_LEN
}

impl Carriage {
    // How many of the continuations start at a payload byte or before it.
    pub(crate) fn passed_by(self, i: usize) -> usize
        ensures { result ≡ passed self.continuations i }
    {
        if i < DSS_FIRST_PAYLOAD_LEN {
            return 0;
        }
        let cuts = (i - DSS_FIRST_PAYLOAD_LEN) / DSS_CONTINUATION_PAYLOAD_LEN + 1;
        cuts.min(self.continuations)
    }

    // How many of so many payload bytes from one on stand in one piece.
    pub(crate) fn piece_of(self, i: usize, most: usize) -> usize
        ensures { result ≡ piece_of self.continuations i most }
    {
        if self.continuations <= self.passed_by(i) {
            return most;
        }
        uncut_from(i).min(most)
    }
}

impl<'a> Payload for Carried<'a> {
    ghost bytes = { λ p. carried p.by p.run.now };

    fn len(&self) -> usize {
        self.run.len() - self.by.lead - DSS_CONTINUATION_HEADER_LEN * self.by.continuations
    }

    fn byte(&self, at: usize) -> u8 {
        if at < self.len() {
            self.run[self.place_of(at)]
        } else {
            0
        }
    }
}

impl<'a> Carried<'a> {
    // Bytes that are the payload themselves.
    pub(crate) fn plain(run: &'a [u8]) -> Carried<'a>
        ensures { carried result.by result.run.now ≡ run.now }
    {
        let by = Carriage {
            lead: 0,
            continuations: 0,
        };
        Carried { run, by }
    }

    // Where a payload byte stands, or the byte behind the last.
    pub(crate) fn place_of(&self, i: usize) -> usize
        requires { i ≤ length (carried self.now.by self.now.run.now) }
        ensures { result ≡ place_of self.now.by i }
    {
        self.by.lead + i + DSS_CONTINUATION_HEADER_LEN * self.by.passed_by(i)
    }

    // Of so many payload bytes from one on, those that stand in one piece.
    pub(crate) fn piece(&self, i: usize, most: usize) -> &'a [u8]
        requires { i + most ≤ length (carried self.now.by self.now.run.now) }
        ensures { result.now ≡ take (piece_of self.now.by.continuations i most) (drop i (carried self.now.by self.now.run.now)) }
    {
        let place = self.place_of(i);
        let end = place + self.by.piece_of(i, most);
        &self.run[place..end]
    }
}
