// Measuring a frame: what it is, how long its payload, where it ends. Touches nothing. Document 01, "Reading".
// Rules, run and place stay three parameters: the public functions have them, and one struct of the three would be no plainer within.
#![tactic(auto)]

mod behind; // behind.rt: what a head behind a frame comes to
mod glance; // glance.rt: what can be told of a frame without measuring it
mod payload; // payload.rt: what is kept of the payload so far

ghost use Rattle.std.specs.Prelude.{◌≡◌, ◌+◌, ◌-◌, ◌≤◌, [], ◌∷◌, length, Ok};
ghost use Rattle.dss_head.specs.Heads.{head_at};
ghost use Rattle.dss_frame.specs.Rules.{chunk_under};
ghost use Rattle.dss_frame.specs.Segments.{first, continuations};
ghost use Rattle.dss_frame.specs.Reading.{look, absorb};
ghost use Rattle.dss_measure.specs.Measure.{measured_at, measured_of, measured_record, extent_of};
ghost use Rattle.dss_measure.specs.inner.Walking.{walked_from, walked_at, adds, looked_of};

use answer::{Refusal, Refused};
use dss_frame::{DssFrame, Rules};
use dss_head::{
    Chunk, DSS_CONTINUATION_HEADER_LEN, DSS_CONTINUATION_PAYLOAD_LEN, DSS_CONTINUED,
    DSS_FIRST_PAYLOAD_LEN, DSS_FULL_SEGMENT_LEN, DSS_HEADER_LEN, DSS_MAX_SEGMENT_LEN, DssHeader,
    DssType,
};

// A frame before its payload is taken: its head, with the last segment's chained flag, its payload's length, its segments,
// and the byte after its last.
#[derive(Clone, Copy)]
pub struct FrameMeasure {
    pub header: DssHeader,
    pub payload_len: usize,
    pub segments: usize,
    pub end: usize,
}

impl FrameMeasure {
    // The record of the frame that was measured at a place, its payload at a place of the room.
    pub fn record(self, at: usize, payload_at: usize) -> DssFrame
        ensures { result ≡ measured_record at payload_at self }
    {
        DssFrame {
            header: self.header,
            payload_at,
            payload_len: self.payload_len,
            segments: self.segments,
            at,
            end: self.end,
        }
    }
}

// A frame's extent alone: its payload's length and the byte after its last.
#[derive(Clone, Copy)]
pub struct Extent {
    pub payload_len: usize,
    pub end: usize,
}

// What the walk over a frame's own segments comes to: the byte after the last, how many there are and how long the payload
// is.
#[derive(Clone, Copy)]
pub struct Walked {
    pub end: usize,
    pub segments: usize,
    pub payload_len: usize,
}

// A segment behind a frame that belongs to it: so many marker bytes of it are dropped, it ends there, and this is its chained
// flag.
#[derive(Clone, Copy)]
pub struct Absorbed {
    pub dropped: usize,
    pub end: usize,
    pub chained: bool,
}

// A payload so far: its length and its first two bytes, 0 where there is none.
#[derive(Clone, Copy)]
pub struct PayloadSoFar {
    pub len: usize,
    pub first: u8,
    pub second: u8,
}

// How many bytes of a run there are from a place on.
pub(crate) fn left(run: &[u8], at: usize) -> usize
    ensures { result ≡ length run.now - at }
{
    run.len().saturating_sub(at)
}

// The head at a place, and a refusal's place in the run.
pub fn head_at(run: &[u8], at: usize) -> Result<DssHeader, Refused>
    ensures { result ≡ head_at run.now at }
{
    if run.len() < at {
        let why = Refusal::BufferTooShort {
            expected: DSS_HEADER_LEN,
            actual: 0,
        };
        return Err(why.at(at));
    }
    DssHeader::parse(&run[at..]).map_err(|refused| refused.why.at(at))
}

// What a continuation's raw length says under either's rules. For salvage a last one may be full. A match, and no type or closure for
// each: which rules hold is told by a value, in every call.
pub fn chunk_under(rules: Rules, raw: u16) -> Chunk
    ensures { result ≡ chunk_under rules raw }
{
    match rules {
        Rules::Reader => dss_head::decide_continuation(raw),
        Rules::Salvage => {
            if raw == DSS_MAX_SEGMENT_LEN {
                return Chunk::Last;
            }
            dss_head::decide_continuation(raw)
        }
    }
}

// The walk over a frame's continuations, behind what of the frame at a place is walked over.
pub(crate) fn walk_on(
    rules: Rules,
    run: &[u8],
    at: usize,
    before: Walked,
) -> Result<Walked, Refused>
    requires { (before.segments ≤ before.end) × (before.payload_len ≤ before.end) × (before.end ≤ length run.now) }
    ensures { result ≡ adds before.segments before.payload_len (walked_from run.now at before.end (continuations rules run.now before.end)) }
{
    let Walked {
        mut end,
        mut segments,
        mut payload_len,
    } = before;
    // No counted loop: where the next continuation starts is read from this one.
    loop {
        let there = run.len() - end;
        if there < DSS_CONTINUATION_HEADER_LEN {
            return Err(Refusal::Incomplete.at(at));
        }
        let raw = wire::u16_at(run, end);
        match chunk_under(rules, raw) {
            Chunk::Dead => {
                return Err(Refusal::DeadContinuation.at(end));
            }
            Chunk::Last => {
                let continuation_len = usize::from(raw);
                if there < continuation_len {
                    return Err(Refusal::Incomplete.at(at));
                }
                return Ok(Walked {
                    end: end + continuation_len,
                    segments: segments + 1,
                    payload_len: payload_len + (continuation_len - DSS_CONTINUATION_HEADER_LEN),
                });
            }
            Chunk::Full => {
                if there < DSS_FULL_SEGMENT_LEN {
                    return Err(Refusal::Incomplete.at(at));
                }
                end += DSS_FULL_SEGMENT_LEN;
                segments += 1;
                payload_len += DSS_CONTINUATION_PAYLOAD_LEN;
            }
        }
    }
}

// The frame's end: its own segments, before anything that follows is looked at. A frame that isn't whole is 1 at its first byte, or
// 16 where a continuation length of 0 or 1 stands, which no further bytes can mend.
pub fn walk_frame(rules: Rules, run: &[u8], at: usize) -> Result<Walked, Refused>
    ensures { result ≡ walked_at rules run.now at }
{
    let there = left(run, at);
    if there < DSS_HEADER_LEN {
        return Err(Refusal::Incomplete.at(at));
    }
    let raw = wire::u16_at(run, at);
    if raw == DSS_CONTINUED {
        if there < DSS_FULL_SEGMENT_LEN {
            return Err(Refusal::Incomplete.at(at));
        }
        let first = Walked {
            end: at + DSS_FULL_SEGMENT_LEN,
            segments: 1,
            payload_len: DSS_FIRST_PAYLOAD_LEN,
        };
        return walk_on(rules, run, at, first);
    }
    let seg_len = usize::from(raw);
    if there < seg_len {
        return Err(Refusal::Incomplete.at(at));
    }
    Ok(Walked {
        end: at + seg_len,
        segments: 1,
        // A length below six leaves no payload.
        payload_len: seg_len.saturating_sub(DSS_HEADER_LEN),
    })
}

// A look at what stands at a place behind a frame whose first segment has a type, and whose payload so far starts an extended
// object or not: the segment there, if it belongs to the frame.
pub fn look_behind(
    rules: Rules,
    run: &[u8],
    first: DssType,
    extended: bool,
    at: usize,
) -> Result<Option<Absorbed>, Refused>
    ensures { result ≡ looked_of (look rules run.now first extended at) }
{
    if left(run, at) < DSS_HEADER_LEN {
        return Ok(None);
    }
    match head_at(run, at) {
        Ok(header) => behind::look_head(rules, run, first, extended, at, header),
        Err(refused) => behind::refusal(rules, refused),
    }
}

// The frame of one segment of so many bytes at a place, and all that it absorbs, look by look.
pub(crate) fn absorb(
    rules: Rules,
    run: &[u8],
    at: usize,
    head: DssHeader,
    seg_len: usize,
) -> Result<FrameMeasure, Refused>
    requires { (6 ≤ seg_len) × (at + seg_len ≤ length run.now) }
    ensures { result ≡ measured_of run.now at (absorb rules run.now at head (first at seg_len ∷ [])) }
{
    let mut header = head;
    let mut segments = 1;
    let mut end = at + seg_len;
    let mut sofar = payload::started(&run[at + DSS_HEADER_LEN..end]);
    while let Some(absorbed) = look_behind(
        rules,
        run,
        header.dss_type,
        payload::starts_extended(sofar),
        end,
    )? {
        let from = end + DSS_HEADER_LEN + absorbed.dropped;
        sofar = payload::grown(sofar, &run[from..absorbed.end]);
        header.flags.chained = absorbed.chained;
        segments += 1;
        end = absorbed.end;
    }
    Ok(FrameMeasure {
        header,
        payload_len: sofar.len,
        segments,
        end,
    })
}

// The frame of one segment of so many bytes at a place, and all that it absorbs.
pub(crate) fn single(
    rules: Rules,
    run: &[u8],
    at: usize,
    head: DssHeader,
    seg_len: usize,
) -> Result<FrameMeasure, Refused>
    requires { (6 ≤ seg_len) × (at + seg_len ≤ length run.now) }
    ensures { result ≡ measured_of run.now at (absorb rules run.now at head (first at seg_len ∷ [])) }
{
    let end = at + seg_len;
    if glance::stands_apart(run, end) {
        return Ok(FrameMeasure {
            header: head,
            payload_len: seg_len - DSS_HEADER_LEN,
            segments: 1,
            end,
        });
    }
    absorb(rules, run, at, head, seg_len)
}

// What a frame that is whole comes to: its head's refusals, then its own segments or all that it absorbs.
pub(crate) fn measure_whole(
    rules: Rules,
    run: &[u8],
    at: usize,
    walked: Walked,
) -> Result<FrameMeasure, Refused>
    requires { walked_at rules run.now at ≡ Ok walked }
    ensures { result ≡ measured_at rules run.now at }
{
    let header = head_at(run, at)?;
    let raw = wire::u16_at(run, at);
    let seg_len = usize::from(raw);
    if seg_len < DSS_HEADER_LEN {
        return Err(Refusal::LengthTooShort(raw).at(at));
    }
    if raw == DSS_CONTINUED {
        let Walked {
            end,
            segments,
            payload_len,
        } = walked;
        return Ok(FrameMeasure {
            header,
            payload_len,
            segments,
            end,
        });
    }
    single(rules, run, at, header, seg_len)
}

// The frame at a place of a run, under either's rules: refusals 10, 1 or 16, 2, 3, 7; never 9.
pub fn measure(rules: Rules, run: &[u8], at: usize) -> Result<FrameMeasure, Refused>
    ensures { result ≡ measured_at rules run.now at }
{
    if run.len() < at {
        return Err(Refused::out_of_bounds(at, run.len()));
    }
    let walked = walk_frame(rules, run, at)?;
    measure_whole(rules, run, at, walked)
}

// The extent of the frame at a place of a run, without its head: the same refusals.
pub fn measure_extent(rules: Rules, run: &[u8], at: usize) -> Result<Extent, Refused>
    ensures { result ≡ extent_of (measured_at rules run.now at) }
{
    if let Some(len) = glance::lone_len(run, at) {
        return Ok(Extent {
            payload_len: len - DSS_HEADER_LEN,
            end: at + len,
        });
    }
    let measure = measure(rules, run, at)?;
    Ok(Extent {
        payload_len: measure.payload_len,
        end: measure.end,
    })
}
