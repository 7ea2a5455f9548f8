// DDM objects and parameters: document 01, "DDM".
#![tactic(auto)]

mod record; // record.rt: the record of one object

ghost use Rattle.std.specs.Prelude.{◌≡◌};
ghost use Rattle.ddm_object.specs.ObjectCalls.{ObjectAt, FindsParam, u16_of, u32_of, i32_of, object_total, param_step_at};
ghost use Rattle.ddm_object.specs.DataParts.{DataAt};
ghost use Rattle.ddm_object.specs.inner.Walked.{PlaceIs};

use answer::{Refusal, Refused};

// An object or parameter as read: its code point, where its data lies, and how many bytes it takes. The data is a part of the
// object's own run, or of the work area once markers came out. `in_work` stays a flag beside `data_at`: C gets both as words of
// their own (`placed_words` of gateway_object).
#[derive(Clone, Copy)]
pub struct DdmObject {
    pub code_point: u16,
    pub in_work: bool,
    pub data_at: usize,
    pub data_len: usize,
    pub consumed: usize,
}

// The object at a place of a run: 10, then its own refusals, then 9.
pub fn object_at(run: &[u8], at: usize, work: &mut [u8]) -> Result<DdmObject, Refused>
    ensures { ObjectAt run.now at work.old result work.new }
{
    if run.len() < at {
        return Err(Refused::out_of_bounds(at, run.len()));
    }
    record::parse_in(&run[at..], at, at, work)
}

impl DdmObject {
    // The object at the front of bytes.
    pub fn parse(bytes: &[u8], work: &mut [u8]) -> Result<DdmObject, Refused>
        ensures { ObjectAt bytes.now 0 work.old result work.new }
    {
        object_at(bytes, 0, work)
    }

    // How many bytes the builder would make of the object's data; above 2^64 - 1 it is given as that.
    pub fn total_length(self) -> usize
        ensures { result ≡ object_total self }
    {
        ddm_builder::built_size(self.data_len)
    }
}

// The first two bytes of data as a number.
pub fn as_u16(data: &[u8]) -> Result<u16, Refused>
    ensures { result ≡ u16_of «data».now }
{
    if data.len() < 2 {
        return Err(Refusal::NotFound.at(0));
    }
    Ok(wire::u16_at(data, 0))
}

// The first four bytes of data as a number.
#[tactic(auto, using(crate::proofs::NumberLaws::four_spelled), unfolding(crate::specs::ObjectCalls::u32_of))]
pub fn as_u32(data: &[u8]) -> Result<u32, Refused>
    ensures { result ≡ u32_of «data».now }
{
    if data.len() < 4 {
        return Err(Refusal::NotFound.at(0));
    }
    Ok(u32::from_be_bytes([data[0], data[1], data[2], data[3]]))
}

// The same, as two's complement.
#[tactic(auto, using(crate::proofs::NumberLaws::i32_number, crate::proofs::NumberLaws::i32_none, crate::proofs::NumberLaws::signed_is))]
pub fn as_i32(data: &[u8]) -> Result<i32, Refused>
    ensures { result ≡ i32_of «data».now }
{
    Ok(as_u32(data)?.cast_signed())
}

// The data of the object at a place: a part of its own bytes, or of the work area once markers came out, which `object_at` has
// filled before. Of a refused object it is the empty part at the start of its bytes (with 10, at the run's end). Nothing is
// written.
pub fn object_data<'a>(run: &'a [u8], at: usize, work: &'a [u8]) -> &'a [u8]
    ensures { DataAt run.entry at work.entry result }
{
    if run.len() < at {
        let end = run.len();
        return &run[end..end];
    }
    let Ok(o) = record::record_at(run, at) else {
        return &run[at..at]; // refused
    };
    if o.in_work {
        if work.len() < o.data_len {
            return &run[at..at];
        }
        return &work[..o.data_len];
    }
    &run[o.data_at..o.data_at + o.data_len]
}

// Where the first parameter with a code point stands.
pub(crate) fn find_place(data: &[u8], code_point: u16) -> Option<usize>
    ensures { PlaceIs «data».now code_point result }
{
    let mut at: usize = 0;
    while let Ok(o) = record::record_at(data, at) {
        if o.code_point == code_point {
            return Some(at);
        }
        at += o.consumed;
    }
    None
}

// The first parameter with a code point: 11 where there is none, then 9.
pub fn find_param(data: &[u8], code_point: u16, work: &mut [u8]) -> Result<DdmObject, Refused>
    ensures { FindsParam «data».now code_point work.old result work.new }
{
    let Some(at) = find_place(data, code_point) else {
        return Err(Refusal::NotFound.at(0));
    };
    record::parse_in(&data[at..], at, 0, work)
}

// One step of a walk over parameters: the record at a place and the next place; 10, then 11 where the list ends, both at the
// place.
pub fn step_at(data: &[u8], at: usize) -> Result<(DdmObject, usize), Refused>
    ensures { result ≡ param_step_at «data».now at }
{
    if data.len() < at {
        return Err(Refused::out_of_bounds(at, data.len()));
    }
    match record::record_at(data, at) {
        Ok(o) => Ok((o, at + o.consumed)),
        Err(_) => Err(Refusal::NotFound.at(at)),
    }
}
