// Lengths, objects and parameters for C and Rust: document 01, module 4, what reads. Slices, numbers and words go as in the
// crate gateway_head; `words` gets eight words or nothing. Lists of objects and parameters stand in gateway_object_rows.
// A `usize` goes into a word by `as`: Rust has no `From` for it.
#![tactic(auto)]

ghost use Rattle.std.specs.Prelude.{◌≡◌};
ghost use Rattle.answer.specs.Rooms.{capped};
ghost use Rattle.ddm_length.specs.Lengths.{marshaled};
ghost use Rattle.ddm_builder.specs.Built.{built_size};
ghost use Rattle.ddm_object.specs.ObjectCalls.{param_step_at, u16_of, u32_of, i32_of};
ghost use Rattle.ddm_length.specs.Markers.{unmarked};
ghost use Rattle.gateway_words.specs.AnswerWords.{Answered, LaysInWords};
ghost use Rattle.gateway_object.specs.ObjectWords.{length_words, placed_words, found_words, step_words, ReadsObject, ReadsParam, number_words, u16_words, u32_words, i32_words};

use answer::Refused;
use ddm_length::Marshaled;
use ddm_object::DdmObject;
use gateway_words::{put_done, put_laid, put_refusal, put_words};

// ---- lengths and markers

// The result: the whole length that the length field says, and the header's.
pub fn lattrugone_parse_marshaled_length(data: &[u8], words: &mut [u64]) -> u8
    ensures { Answered (length_words (marshaled «data».now 0)) words.old result words.new }
{
    match ddm_length::parse_marshaled_length(data) {
        Ok(Marshaled { total, header }) => put_done(words, total as u64, header as u64, 0, 0),
        Err(refused) => put_refusal(words, refused),
    }
}

// Data without its markers, at the room's first byte. The result: how many bytes that are.
pub fn lattrugone_strip_markers(data: &[u8], room: &mut [u8], words: &mut [u64]) -> u8
    ensures { LaysInWords (unmarked «data».now) room.old words.old result room.new words.new }
{
    let laid = ddm_length::strip_extended_ddm_continuation_markers(data, room);
    put_laid(words, laid)
}

// ---- objects and parameters. The result: code point; 1 where the data lie in the work area, 0 where in the run; where they
// start there; how many they are; how many bytes the object takes.

// An object, with a place beside the number 0.
pub fn put_object(words: &mut [u64], place: usize, o: DdmObject) -> u8
    ensures { Answered (placed_words place o) words.old result words.new }
{
    put_words(
        words,
        [
            0,
            place as u64,
            u64::from(o.code_point),
            u64::from(o.in_work),
            o.data_at as u64,
            o.data_len as u64,
            o.consumed as u64,
            0,
        ],
    );
    0
}

// An object, or why there is none.
pub(crate) fn put_found(words: &mut [u64], found: Result<DdmObject, Refused>) -> u8
    ensures { Answered (found_words found) words.old result words.new }
{
    match found {
        Ok(o) => put_object(words, 0, o),
        Err(refused) => put_refusal(words, refused),
    }
}

// The object at a place of a run.
pub fn lattrugone_object(run: &[u8], at: usize, work: &mut [u8], words: &mut [u64]) -> u8
    ensures { ReadsObject run.now at work.old words.old result work.new words.new }
{
    let found = ddm_object::object_at(run, at, work);
    put_found(words, found)
}

// The first parameter with a code point.
pub fn lattrugone_find_param(data: &[u8], code_point: u16, work: &mut [u8], words: &mut [u64]) -> u8
    ensures { ReadsParam «data».now code_point work.old words.old result work.new words.new }
{
    let found = ddm_object::find_param(data, code_point, work);
    put_found(words, found)
}

// The parameter at a place, by measuring alone; in the place's word the next place. 10, then 11 where the list ends.
pub fn lattrugone_param_step(data: &[u8], at: usize, words: &mut [u64]) -> u8
    ensures { Answered (step_words (param_step_at «data».now at)) words.old result words.new }
{
    match ddm_object::step_at(data, at) {
        Ok((o, next)) => put_object(words, next, o),
        Err(refused) => put_refusal(words, refused),
    }
}

// How many bytes the builder would make of an object with so much data, whatever else its record says. By the record's own function,
// so that the comparison with the Rust runs that.
pub fn lattrugone_object_total_length(data_len: usize) -> usize
    ensures { result ≡ capped (built_size data_len) }
{
    let o = DdmObject {
        code_point: 0,
        in_work: false,
        data_at: 0,
        data_len,
        consumed: 0,
    };
    o.total_length()
}

// ---- numbers read from data. The result: the number; a negative one as two's complement of 64 bits.

// A number, or why there is none.
pub(crate) fn put_number(words: &mut [u64], found: Result<u64, Refused>) -> u8
    ensures { Answered (number_words found) words.old result words.new }
{
    match found {
        Ok(n) => put_done(words, n, 0, 0, 0),
        Err(refused) => put_refusal(words, refused),
    }
}

pub fn lattrugone_as_u16(data: &[u8], words: &mut [u64]) -> u8
    ensures { Answered (u16_words (u16_of «data».now)) words.old result words.new }
{
    put_number(words, ddm_object::as_u16(data).map(u64::from))
}

pub fn lattrugone_as_u32(data: &[u8], words: &mut [u64]) -> u8
    ensures { Answered (u32_words (u32_of «data».now)) words.old result words.new }
{
    put_number(words, ddm_object::as_u32(data).map(u64::from))
}

pub fn lattrugone_as_i32(data: &[u8], words: &mut [u64]) -> u8
    ensures { Answered (i32_words (i32_of «data».now)) words.old result words.new }
{
    let found = ddm_object::as_i32(data);
    put_number(words, found.map(|n| i64::from(n).cast_unsigned()))
}
