// The length of a DDM object or parameter, and the removal of continuation markers: document 01, "DDM".
#![tactic(auto)]

ghost use Rattle.std.specs.Prelude.{◌≡◌, true, ℕ, ◌+◌, ◌^◌, ◌≤◌, ◌<◌, List, length, take, drop, get_or};
ghost use Rattle.wire.specs.Bytes.{be16, laid};
ghost use Rattle.answer.specs.Rooms.{Lays};
ghost use Rattle.ddm_length.specs.Lengths.{extended, marshaled, measured};
ghost use Rattle.ddm_length.specs.Markers.{past_marker, has_markers, unmarked};
ghost use Rattle.ddm_length.specs.inner.Numbered.{spelled_number};
ghost use Rattle.ddm_length.specs.inner.Keeping.{KeptPart};

use answer::{Refusal, Refused};

const DDM_HEADER_LEN: usize = 4;

const EXTENDED_DDM_FIRST_CHUNK_LEN: usize = 32_757;

const EXTENDED_DDM_CONTINUATION_CHUNK_LEN: usize = 32_764;

const EXTENDED_DDM_CONTINUATION_MARKER_LEN: usize = 2;

// What a length field says: the whole length and the header's.
#[derive(Clone, Copy)]
pub struct Marshaled {
    pub total: usize,
    pub header: usize,
}

// Bytes where they lie: in one run, or in the pieces of one. Beyond the last each is 0.
pub trait Payload {
    ghost bytes: { Self → List ℕ };

    fn len(&self) -> usize
        ensures { result ≡ length (bytes self.now) };

    fn byte(&self, at: usize) -> u8
        ensures { result ≡ get_or (bytes self.now) at 0 };
}

impl<'a> Payload for &'a [u8] {
    ghost bytes = { λ s. s.now };

    fn len(&self) -> usize {
        (**self).len()
    }

    fn byte(&self, at: usize) -> u8 {
        wire::byte_at(self, at)
    }
}

// Two bytes of a payload as a number; one beyond the last is 0.
pub fn u16_in<P: Payload>(payload: &P, at: usize) -> u16
    ensures { result ≡ be16 (P.bytes payload.now) at }
{
    if payload.len() <= at {
        return 0;
    }
    wire::u16_of(payload.byte(at), payload.byte(at + 1))
}

// The number that so many bytes from one on spell; none where it exceeds 2^64 - 1.
pub(crate) fn number_in<P: Payload>(payload: &P, from: usize, len: usize) -> Option<usize>
    requires inside { from + len ≤ length (P.bytes payload.now) }
    requires counted { from + len < 2 ^ 64 }
    ensures { result ≡ spelled_number (take len (drop from (P.bytes payload.now))) }
{
    let mut n: usize = 0;
    for i in 0..len {
        let byte = payload.byte(from + i);
        n = n.checked_mul(256)?.checked_add(usize::from(byte))?;
    }
    Some(n)
}

// The length in an extended header of so many bytes, of an object at a payload byte: 6, 4, 8.
pub(crate) fn extended_in<P: Payload>(
    payload: &P,
    at: usize,
    place: usize,
    header: u16,
) -> Result<Marshaled, Refused>
    ensures { result ≡ extended (drop at (P.bytes payload.now)) place header }
{
    if header < 4 {
        return Err(Refusal::HeaderTooShort(header).at(place));
    }
    let expected = usize::from(header);
    let actual = payload.len().saturating_sub(at);
    if actual < expected {
        return Err(Refusal::BufferTooShort { expected, actual }.at(place));
    }
    match number_in(payload, at + DDM_HEADER_LEN, expected - DDM_HEADER_LEN) {
        Some(n) if n <= usize::MAX - expected => Ok(Marshaled {
            total: expected + n,
            header: expected,
        }),
        _ => Err(Refusal::LengthTooLarge(header).at(place)),
    }
}

// What the length field of an object at a payload byte says; a refusal has the place that is given: 4, 6, 4, 8.
pub fn length_in<P: Payload>(payload: &P, at: usize, place: usize) -> Result<Marshaled, Refused>
    ensures { result ≡ marshaled (drop at (P.bytes payload.now)) place }
{
    let header = DDM_HEADER_LEN;
    let actual = payload.len().saturating_sub(at);
    if actual < header {
        return Err(Refusal::BufferTooShort {
            expected: header,
            actual,
        }
        .at(place));
    }
    let raw = u16_in(payload, at);
    if raw == 0x8004 {
        return Ok(Marshaled {
            total: actual,
            header,
        });
    }
    if raw < 0x8000 {
        return Ok(Marshaled {
            total: usize::from(raw),
            header,
        });
    }
    extended_in(payload, at, place, raw - 0x8000)
}

// What an object at a payload byte takes, once its length is known and fits: then 5, then 4. Inline, so that a walk over a payload finds
// the payload's length once.
#[inline(always)]
pub fn measure_in<P: Payload>(payload: &P, at: usize, place: usize) -> Result<Marshaled, Refused>
    ensures { result ≡ measured (drop at (P.bytes payload.now)) place }
{
    let Marshaled { total, header } = length_in(payload, at, place)?;
    let actual = payload.len().saturating_sub(at);
    if total < header {
        // `as`, and no `try_from`: what is below its header is inline, and fits; there is no refusal for what can't be.
        let length = total as u16;
        let code_point = u16_in(payload, at + 2);
        return Err(Refusal::InlineTooShort { length, code_point }.at(place));
    }
    if actual < total {
        return Err(Refusal::BufferTooShort {
            expected: total,
            actual,
        }
        .at(place));
    }
    Ok(Marshaled { total, header })
}

// The next four are public names over a slice; each is one call of a more general one.

// What the length field of an object at a place says; `bytes` is all that stands from the place on: 4, 6, 4, 8.
pub fn length_at(bytes: &[u8], place: usize) -> Result<Marshaled, Refused>
    ensures { result ≡ marshaled bytes.now place }
{
    length_in(&bytes, 0, place)
}

// The same, of an object that stands at the first byte.
pub fn parse_marshaled_length(bytes: &[u8]) -> Result<Marshaled, Refused>
    ensures { result ≡ marshaled bytes.now 0 }
{
    length_at(bytes, 0)
}

// What an object at a place takes, once its length is known and fits: then 5, then 4.
pub fn measure_at(bytes: &[u8], place: usize) -> Result<Marshaled, Refused>
    ensures { result ≡ measured bytes.now place }
{
    measure_in(&bytes, 0, place)
}

// The same, of an object that stands at the first byte.
pub fn measure_object(bytes: &[u8]) -> Result<Marshaled, Refused>
    ensures { result ≡ measured bytes.now 0 }
{
    measure_at(bytes, 0)
}

// Whether markers are looked for at all: one stands at the first place that one can have.
pub fn has_markers(data: &[u8]) -> bool
    ensures { result ≡ has_markers «data».now }
{
    EXTENDED_DDM_FIRST_CHUNK_LEN + EXTENDED_DDM_CONTINUATION_MARKER_LEN < data.len()
        && wire::is_marker(wire::u16_at(data, EXTENDED_DDM_FIRST_CHUNK_LEN))
}

// What stands behind a marker at hand, or all.
pub(crate) fn past_marker(data: &[u8]) -> &[u8]
    ensures { result.now ≡ past_marker «data».now }
{
    // Fewer bytes are no marker, so the length needs no test; but with it the walk from part to part is a branch for the processor, and
    // without it a sum that waits for the bytes: three times the time.
    if EXTENDED_DDM_CONTINUATION_MARKER_LEN <= data.len()
        && wire::is_marker(wire::u16_at(data, 0))
    {
        &data[EXTENDED_DDM_CONTINUATION_MARKER_LEN..]
    } else {
        data
    }
}

// The next part that is kept, behind a marker at hand and up to a chunk's length or the end, and what stands behind it.
pub(crate) fn next_part(data: &[u8]) -> (&[u8], &[u8])
    requires { 0 < length «data».now }
    ensures { KeptPart «data».now result.0.now result.1.now }
{
    let left = past_marker(data);
    left.split_at(left.len().min(EXTENDED_DDM_CONTINUATION_CHUNK_LEN))
}

// How many bytes are left once markers are removed. A `while`, here and below, over what is left: the parts have no one length for
// `chunks`, and an iterator of their own would be longer than both loops.
pub fn unmarked_len(data: &[u8]) -> usize
    ensures { result ≡ length (unmarked «data».now) }
{
    if !has_markers(data) {
        return data.len();
    }
    let mut len = EXTENDED_DDM_FIRST_CHUNK_LEN;
    let mut left = &data[len..];
    while !left.is_empty() {
        let (part, behind) = next_part(left);
        len += part.len();
        left = behind;
    }
    len
}

// Lays data that has markers down without them, part by part.
pub(crate) fn lay_kept(data: &[u8], work: &mut [u8])
    requires data_value { has_markers «data».now ≡ true }
    requires data_in_bounds { length (unmarked «data».now) ≤ length work.old }
    ensures { work.new ≡ laid work.old 0 (unmarked «data».now) }
{
    let (first, mut left) = data.split_at(EXTENDED_DDM_FIRST_CHUNK_LEN);
    wire::copy(first, work);
    let mut fill = first.len();
    while !left.is_empty() {
        let (part, behind) = next_part(left);
        wire::lay_at(part, work, fill);
        fill += part.len();
        left = behind;
    }
}

// Lays data down without its markers at the work area's start: 9 where it is too short.
pub fn strip_extended_ddm_continuation_markers(
    data: &[u8],
    work: &mut [u8],
) -> Result<usize, Refused>
    ensures { Lays (unmarked «data».now) work.old result work.new }
{
    let need = unmarked_len(data);
    if work.len() < need {
        return Err(Refused::no_room(need, 0, 0));
    }
    if has_markers(data) {
        lay_kept(data, work);
    } else {
        wire::copy(data, work);
    }
    Ok(need)
}
