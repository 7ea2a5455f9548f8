// The record of one object: found by measuring alone, and its data then laid into the work area where they go there.
ghost use Rattle.std.specs.Prelude.{◌≡◌, ◌+◌, ◌≤◌, ◌<◌, ◌^◌, length, drop};
ghost use Rattle.ddm_object.specs.ObjectCalls.{lies_in_work};
ghost use Rattle.ddm_object.specs.inner.RecordsGiven.{record_found, GivesIn};

use super::DdmObject;
use answer::Refused;
use ddm_length::Marshaled;

// Whether an object's data go through the work area: raw length 0x8004, and markers in it.
pub(crate) fn in_work(bytes: &[u8]) -> bool
    ensures { result ≡ lies_in_work bytes.now }
{
    wire::u16_at(bytes, 0) == 0x8004 && bytes.len() >= 4 && ddm_length::has_markers(&bytes[4..])
}

// The record of an object, by measuring alone; `bytes` is all that stands from its place on.
#[tactic(auto, using(crate::proofs::ObjectRecords::record_refused))]
pub(crate) fn record_in(bytes: &[u8], place: usize) -> Result<DdmObject, Refused>
    requires { place + length bytes.now < 2 ^ 64 }
    ensures { result ≡ record_found bytes.now place }
{
    let Marshaled { total, header } = ddm_length::measure_at(bytes, place)?;
    let code_point = wire::u16_at(bytes, 2);
    if in_work(bytes) {
        return Ok(DdmObject {
            code_point,
            in_work: true,
            data_at: 0,
            data_len: ddm_length::unmarked_len(&bytes[4..]),
            consumed: total,
        });
    }
    Ok(DdmObject {
        code_point,
        in_work: false,
        data_at: place + header,
        data_len: total - header,
        consumed: total,
    })
}

// The same of the object at a place of a run: the part of the run from there on is handed on as a whole input.
pub(crate) fn record_at(run: &[u8], at: usize) -> Result<DdmObject, Refused>
    requires { at ≤ length run.now }
    ensures { result ≡ record_found (drop at run.now) at }
{
    record_in(&run[at..], at)
}

// An object whose record is found first, and whose data then go into the work area: 9 at the position that the call has.
#[tactic(auto, using(crate::proofs::ObjectRecords::gives_refused, crate::proofs::ObjectRecords::refused_of))]
pub(crate) fn parse_in(
    bytes: &[u8],
    place: usize,
    position: usize,
    work: &mut [u8],
) -> Result<DdmObject, Refused>
    requires { place + length bytes.now < 2 ^ 64 }
    ensures { GivesIn bytes.now place position work.old result work.new }
{
    let o = record_in(bytes, place)?;
    if !o.in_work {
        return Ok(o);
    }
    // Tested here, where the length is known: stripping would walk over all markers again before it refuses.
    if work.len() < o.data_len {
        return Err(Refused::no_room(o.data_len, 0, position));
    }
    // nothing is refused where there is room
    let _ = ddm_length::strip_extended_ddm_continuation_markers(&bytes[4..], work);
    Ok(o)
}
