// What a head that stands behind a frame comes to. Document 01, "Any other frame then looks at what follows".
ghost use Rattle.std.specs.Prelude.{◌≡◌, ◌+◌, ◌≤◌, length, Ok};
ghost use Rattle.wire.specs.Bytes.{be16};
ghost use Rattle.dss_frame.specs.Reading.{follows, own_object, dropped_at, refusal, look_at};
ghost use Rattle.dss_measure.specs.inner.Walking.{looked_of};

use super::{Absorbed, left};
use answer::{Refusal, Refused};
use dss_frame::Rules;
use dss_head::{DSS_CONTINUED, DSS_HEADER_LEN, DssHeader, DssType};

// Whether a segment of a type may be absorbed by a frame whose first segment has a type.
pub(crate) fn follows(first: DssType, next: DssType) -> bool
    ensures { result ≡ follows first next }
{
    if next == first {
        return true;
    }
    if next != DssType::Object {
        return false;
    }
    matches!(first, DssType::Request | DssType::Reply | DssType::NoReply)
}

// Whether a segment that is there starts an object of its own: more than four bytes of payload, of which the first two are a
// length and the next two a code point.
pub(crate) fn own_object(run: &[u8], at: usize, raw: u16) -> bool
    requires { (raw ≡ be16 run.now at) × (at + raw ≤ length run.now) }
    ensures { result ≡ own_object run.now at }
{
    if raw <= 10 {
        return false;
    }
    if wire::u16_at(run, at + 8) <= 0x0100 {
        return false;
    }
    wire::u16_at(run, at + 6) <= raw - 2
}

// How many marker bytes of a segment that is there are dropped, behind a payload that starts an extended object or not. A
// marker is the payload's first two bytes.
pub(crate) fn dropped_at(run: &[u8], extended: bool, at: usize, raw: u16) -> usize
    requires { (raw ≡ be16 run.now at) × (at + raw ≤ length run.now) }
    ensures { result ≡ dropped_at run.now extended at }
{
    if extended && raw >= 8 && wire::is_marker(wire::u16_at(run, at + 6)) {
        2
    } else {
        0
    }
}

// What a head refused while looking ahead comes to. A match, since which rules hold is told by a value.
pub(crate) fn refusal(rules: Rules, refused: Refused) -> Result<Option<Absorbed>, Refused>
    ensures { result ≡ looked_of (refusal rules refused) }
{
    match rules {
        Rules::Reader => Err(refused),
        Rules::Salvage => Ok(None),
    }
}

// What a head that stands behind a frame comes to.
pub(crate) fn look_head(
    rules: Rules,
    run: &[u8],
    first: DssType,
    extended: bool,
    at: usize,
    header: DssHeader,
) -> Result<Option<Absorbed>, Refused>
    ensures { result ≡ looked_of (look_at rules run.now first extended at (Ok header)) }
{
    let raw = wire::u16_at(run, at);
    if raw == DSS_CONTINUED {
        return Ok(None);
    }
    let flags = header.flags;
    if !flags.same_correlation {
        return Ok(None);
    }
    if !follows(first, header.dss_type) {
        return Ok(None);
    }
    let cont_len = usize::from(raw);
    if left(run, at) < cont_len {
        return Ok(None);
    }
    if cont_len < DSS_HEADER_LEN {
        return refusal(rules, Refusal::LengthTooShort(raw).at(at));
    }
    if own_object(run, at, raw) {
        return Ok(None);
    }
    Ok(Some(Absorbed {
        dropped: dropped_at(run, extended, at, raw),
        end: at + cont_len,
        chained: flags.chained,
    }))
}
