// The parts of a payload laid down one behind the other, as the writer cuts it: `frame_size(at)`
// bytes of a frame stand before what belongs to its payload byte `at`.
ghost use Rattle.std.specs.Prelude.{◌≡◌, ◌++◌, ◌+◌, ◌-◌, ◌≤◌, ◌<◌, length};
ghost use Rattle.wire.specs.Bytes.{two, part, splice};
ghost use Rattle.dss_frame.specs.Written.{frame_size};
ghost use Rattle.ddm_builder.specs.Headers.{header_of};
ghost use Rattle.ddm_change.specs.inner.Carried.{carried, uncut};
ghost use Rattle.ddm_change.specs.inner.Outlay.{raw_first, starts, raw_at};

use super::carried::{Carried, uncut_from};
use dss_head::{
    DSS_CONTINUATION_HEADER_LEN, DSS_CONTINUATION_PAYLOAD_LEN, DSS_CONTINUED,
    DSS_FIRST_PAYLOAD_LEN, DSS_HEADER_LEN,
};

// A payload on its way into a room that has room for its frame: the room, how long the payload is, and its byte that is next.
#[derive(Drop)]
pub(crate) struct Laying<'a> {
    pub room: &'a mut [u8],
    pub len: usize,
    pub at: usize,
    ghost fits: { frame_size len ≤ length room.now },
}

// The length in the first segment of a frame with so much payload. It fits, here and in `raw_at`, as the proof shows: TryFrom would
// answer an error that there can't be.
pub(crate) fn raw_first(len: usize) -> u16
    ensures { result ≡ raw_first len }
{
    if len <= DSS_FIRST_PAYLOAD_LEN {
        return (len + DSS_HEADER_LEN) as u16;
    }
    DSS_CONTINUED
}

// The head of a frame with so much payload: its length, and behind it what stands there in the given frame.
pub(crate) fn lay_head(frame: &[u8], len: usize, room: &mut [u8])
    requires { (6 ≤ length frame.now) × (6 ≤ length room.old) }
    ensures { room.new ≡ splice room.old 0 (two (raw_first len) ++ part frame.now 2 6) }
{
    wire::put_u16(room, raw_first(len));
    wire::lay_at(&frame[2..DSS_HEADER_LEN], room, 2);
}

// Whether a continuation starts at a payload byte.
pub(crate) fn starts_at(at: usize) -> bool
    ensures { result ≡ starts at }
{
    DSS_FIRST_PAYLOAD_LEN <= at && (at - DSS_FIRST_PAYLOAD_LEN) % DSS_CONTINUATION_PAYLOAD_LEN == 0
}

// The length that a continuation has which starts at a payload byte.
pub(crate) fn raw_at(len: usize, at: usize) -> u16
    requires { at ≤ len }
    ensures { result ≡ raw_at len at }
{
    if len - at <= DSS_CONTINUATION_PAYLOAD_LEN {
        return (len - at + DSS_CONTINUATION_HEADER_LEN) as u16;
    }
    DSS_CONTINUED
}

impl<'a> Laying<'a> {
    ghost use Rattle.ddm_change.specs.inner.LaysOn.{LaysOn};

    // Payload bytes that no cut divides, behind the length of the continuation that starts with them, if one does.
    pub(crate) fn piece(&mut self, bytes: &[u8])
        requires some { 0 < length bytes.now }
        requires whole { length bytes.now ≤ uncut self.old.at }
        requires inside { self.old.at + length bytes.now ≤ self.old.len }
        ensures { LaysOn bytes.now self.old self.new }
    {
        let mut mark = dss_writer::frame_size(self.at);
        if starts_at(self.at) {
            wire::put_u16(&mut self.room[mark..], raw_at(self.len, self.at));
            mark += DSS_CONTINUATION_HEADER_LEN;
        }
        wire::lay_at(bytes, self.room, mark);
        self.at += bytes.len();
    }

    // A part of a payload that a run carries.
    pub(crate) fn part(&mut self, payload: &Carried, from: usize, to: usize)
        requires ordered { from ≤ to }
        requires there { to ≤ length (carried payload.now.by payload.now.run.now) }
        requires inside { self.old.at + (to - from) ≤ self.old.len }
        ensures { LaysOn (part (carried payload.now.by payload.now.run.now) from to) self.old self.new }
    {
        let mut i = from;
        // no `for`: a piece is as long as it is cut
        while i < to {
            let most = uncut_from(self.at).min(to - i);
            let piece = payload.piece(i, most);
            self.piece(piece);
            i += piece.len();
        }
    }

    // An object's header, of a code point and so much data.
    pub(crate) fn header(&mut self, code_point: u16, n: usize)
        requires { self.old.at + length (header_of code_point n) ≤ self.old.len }
        ensures { LaysOn (header_of code_point n) self.old self.new }
    {
        let mut head = [0u8; 12];
        ddm_builder::lay_header(code_point, n, &mut head);
        let end = ddm_builder::serialized_header_len(n);
        self.part(&Carried::plain(&head), 0, end);
    }
}
