// Measure, then take: document 02, W-208. `measure` says what a frame is and how much room its payload wants, `take` lays the payload
// into lent room, each segment's part copied once. Both are told which rules hold; what they read is document 01, "Reading".
#![tactic(auto)]

ghost use Rattle.std.specs.Prelude.{◌+◌, ◌-◌, ◌≤◌, ◌≡◌, length, take};
ghost use Rattle.wire.specs.Bytes.{be16, part, splice};
ghost use Rattle.dss_frame.specs.Reading.{starts_extended};
ghost use Rattle.dss_measure.specs.Measure.{measured_at};
ghost use Rattle.dss_take.specs.Take.{payload_at, Takes};
ghost use Rattle.dss_take.specs.inner.Payloads.{FitsRoom, Typed};

use answer::Refused;
use dss_frame::Rules;
use dss_head::{
    Chunk, DSS_CONTINUATION_HEADER_LEN, DSS_CONTINUATION_PAYLOAD_LEN, DSS_CONTINUED,
    DSS_FIRST_PAYLOAD_LEN, DSS_FULL_SEGMENT_LEN, DSS_HEADER_LEN, DssType,
};
use dss_measure::FrameMeasure;

// `FitsRoom` stands in three clauses, and in no type: a struct would hold the rules, the run, the place and the lent room for the
// length of one call, and its functions would be no plainer.

// A part of the run, laid into the room from a place on.
pub(crate) fn copy_part(run: &[u8], from: usize, end: usize, room: &mut [u8], at: usize)
    requires { (from ≤ end) × (end ≤ length run.now) × (at + (end - from) ≤ length room.old) }
    ensures { room.new ≡ splice room.old at (part run.now from end) }
{
    wire::lay_at(&run[from..end], room, at);
}

// The payload of a frame of raw length 0xFFFF: its first segment's, and each continuation's up to the last.
pub(crate) fn copy_chunks(rules: Rules, run: &[u8], at: usize, room: &mut [u8])
    requires { FitsRoom rules run.now at room.old × (be16 run.now at ≡ 0xFFFF) }
    ensures { room.new ≡ splice room.old 0 (payload_at rules run.now at) }
{
    let mut from = at + DSS_FULL_SEGMENT_LEN;
    let mut fill = DSS_FIRST_PAYLOAD_LEN;
    copy_part(run, at + DSS_HEADER_LEN, from, room, 0);
    // No counted loop: where the next continuation starts is read from this one.
    loop {
        let raw = wire::u16_at(run, from);
        match dss_measure::chunk_under(rules, raw) {
            Chunk::Dead => return,
            Chunk::Last => {
                let end = from + usize::from(raw);
                copy_part(run, from + DSS_CONTINUATION_HEADER_LEN, end, room, fill);
                return;
            }
            Chunk::Full => {
                let next = from + DSS_FULL_SEGMENT_LEN;
                copy_part(run, from + DSS_CONTINUATION_HEADER_LEN, next, room, fill);
                fill += DSS_CONTINUATION_PAYLOAD_LEN;
                from = next;
            }
        }
    }
}

// Whether the payload so far, the room's first bytes, starts an extended object.
pub(crate) fn starts_extended(room: &[u8], fill: usize) -> bool
    requires { fill ≤ length room.now }
    ensures { result ≡ starts_extended (take fill room.now) }
{
    fill >= 4 && wire::u16_at(room, 0) == 0x8004
}

// The payload of any other frame, whose head has this type and whose payload this length: its first segment's, and what each
// segment that it absorbs adds. Once all of it is there, nothing more is looked at.
pub(crate) fn copy_absorbed(
    rules: Rules,
    run: &[u8],
    at: usize,
    first: DssType,
    need: usize,
    room: &mut [u8],
)
    requires { FitsRoom rules run.now at room.old × Typed rules run.now at first × (be16 run.now at ≡ 0xFFFF → ⊥) × (need ≡ length (payload_at rules run.now at)) }
    ensures { room.new ≡ splice room.old 0 (payload_at rules run.now at) }
{
    let seg_len = usize::from(wire::u16_at(run, at));
    let mut end = at + seg_len;
    let mut fill = seg_len - DSS_HEADER_LEN;
    copy_part(run, at + DSS_HEADER_LEN, end, room, 0);
    // No index is counted: what was looked at says where the next look is.
    while fill < need {
        let extended = starts_extended(room, fill);
        let Ok(Some(absorbed)) = dss_measure::look_behind(rules, run, first, extended, end) else {
            return;
        };
        let from = end + DSS_HEADER_LEN + absorbed.dropped;
        copy_part(run, from, absorbed.end, room, fill);
        fill += absorbed.end - from;
        end = absorbed.end;
    }
}

// The payload of the frame at a place, whose head has this type and whose payload this length, at the room's start.
pub(crate) fn copy_frame(
    rules: Rules,
    run: &[u8],
    at: usize,
    first: DssType,
    need: usize,
    room: &mut [u8],
)
    requires { FitsRoom rules run.now at room.old × Typed rules run.now at first × (need ≡ length (payload_at rules run.now at)) }
    ensures { room.new ≡ splice room.old 0 (payload_at rules run.now at) }
{
    if wire::u16_at(run, at) == DSS_CONTINUED {
        copy_chunks(rules, run, at, room);
    } else {
        copy_absorbed(rules, run, at, first, need, room);
    }
}

// The frame at a place of a run, under either's rules: its head, its payload's length, its segments, and the position after it. All
// refusals but 9: 10, 1 or 16, 2, 3, 7. Touches nothing.
pub fn measure(rules: Rules, run: &[u8], at: usize) -> Result<FrameMeasure, Refused>
    ensures { result ≡ measured_at rules run.now at }
{
    dss_measure::measure(rules, run, at)
}

// The same frame, its payload laid at the room's start: all refusals, 9 last. It measures the run itself, whatever its caller has
// measured before; and not through `measure` above, by which the compiled code was a fiftieth slower.
pub fn take(rules: Rules, run: &[u8], at: usize, room: &mut [u8]) -> Result<FrameMeasure, Refused>
    ensures { Takes rules run.now at room.old result room.new }
{
    let frame = dss_measure::measure(rules, run, at)?;
    let need = frame.payload_len;
    if room.len() < need {
        return Err(Refused::no_room(need, 0, at));
    }
    copy_frame(rules, run, at, frame.header.dss_type, need, room);
    Ok(frame)
}
