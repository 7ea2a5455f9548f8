// Building DDM objects for C and Rust: document 01, module 4. Slices, numbers and words go as in the crate gateway_head. A builder
// goes in as its fill mark, and where its object is built also as the object's code point: adding doesn't look at that one. A
// `usize` goes into a word by `as`: Rust has no `From` for it.
#![tactic(auto)]

ghost use Rattle.std.specs.Prelude.{◌≡◌};
ghost use Rattle.ddm_builder.specs.Built.{built};
ghost use Rattle.ddm_builder.specs.Builder.{parameter16, parameter32, builder_total};
ghost use Rattle.gateway_words.specs.AnswerWords.{Answered, LaysInWords};
ghost use Rattle.gateway_builder.specs.BuilderWords.{builder_of, adding, added_words, Appends, Makes};

use answer::Refused;
use ddm_builder::DdmBuilder;
use gateway_words::{put_done, put_laid, put_refusal};

// A builder that is only added to, or measured: no matter which code point.
fn adding(fill: usize) -> DdmBuilder
    ensures { result ≡ adding fill }
{
    DdmBuilder {
        code_point: 0,
        fill,
    }
}

// The builder after an addition, as its fill mark, or why nothing was added.
pub(crate) fn put_added(words: &mut [u64], added: Result<DdmBuilder, Refused>) -> u8
    ensures { Answered (added_words added) words.old result words.new }
{
    match added {
        Ok(builder) => put_done(words, builder.fill as u64, 0, 0, 0),
        Err(refused) => put_refusal(words, refused),
    }
}

// ---- adding to a builder's data, from the fill mark on. The result: the fill mark behind what was added. The functions' names and
// parameters are C's, here and below.

pub fn lattrugone_builder_add_code_point(
    fill: usize,
    cp: u16,
    data: &[u8],
    room: &mut [u8],
    words: &mut [u64],
) -> u8
    ensures { Appends (adding fill) (built cp «data».now) room.old words.old result room.new words.new }
{
    let added = adding(fill).add_code_point(cp, data, room);
    put_added(words, added)
}

pub fn lattrugone_builder_add_u16(
    fill: usize,
    cp: u16,
    val: u16,
    room: &mut [u8],
    words: &mut [u64],
) -> u8
    ensures { Appends (adding fill) (parameter16 cp val) room.old words.old result room.new words.new }
{
    let added = adding(fill).add_u16(cp, val, room);
    put_added(words, added)
}

pub fn lattrugone_builder_add_u32(
    fill: usize,
    cp: u16,
    val: u32,
    room: &mut [u8],
    words: &mut [u64],
) -> u8
    ensures { Appends (adding fill) (parameter32 cp val) room.old words.old result room.new words.new }
{
    let added = adding(fill).add_u32(cp, val, room);
    put_added(words, added)
}

pub fn lattrugone_builder_add_raw(
    fill: usize,
    data: &[u8],
    room: &mut [u8],
    words: &mut [u64],
) -> u8
    ensures { Appends (adding fill) «data».now room.old words.old result room.new words.new }
{
    let added = adding(fill).add_raw(data, room);
    put_added(words, added)
}

// ---- a builder's object: its data are the filled part of `content`, and it is laid at the start of `room`. The result: how
// many bytes were laid down.

pub fn lattrugone_builder_build(
    code_point: u16,
    fill: usize,
    content: &[u8],
    room: &mut [u8],
    words: &mut [u64],
) -> u8
    ensures { Makes (builder_of code_point fill) content.now room.old words.old result room.new words.new }
{
    let builder = DdmBuilder { code_point, fill };
    let laid = builder.build(content, room);
    put_laid(words, laid)
}

// How many bytes the object is, of its data's length; 2^64 - 1 where they are more.
pub fn lattrugone_builder_total_length(fill: usize) -> usize
    ensures { result ≡ builder_total (adding fill) }
{
    adding(fill).total_length()
}

// ---- a parameter or an object at the room's first byte. The result: how many bytes were laid down.

pub fn lattrugone_build_param(
    code_point: u16,
    data: &[u8],
    room: &mut [u8],
    words: &mut [u64],
) -> u8
    ensures { LaysInWords (built code_point «data».now) room.old words.old result room.new words.new }
{
    let laid = ddm_builder::build_param(code_point, data, room);
    put_laid(words, laid)
}

pub fn lattrugone_build_param_u16(
    code_point: u16,
    value: u16,
    room: &mut [u8],
    words: &mut [u64],
) -> u8
    ensures { LaysInWords (parameter16 code_point value) room.old words.old result room.new words.new }
{
    let laid = ddm_builder::build_param_u16(code_point, value, room);
    put_laid(words, laid)
}

pub fn lattrugone_build_ddm_object(
    code_point: u16,
    payload: &[u8],
    room: &mut [u8],
    words: &mut [u64],
) -> u8
    ensures { LaysInWords (built code_point payload.now) room.old words.old result room.new words.new }
{
    let laid = ddm_builder::build_ddm_object(code_point, payload, room);
    put_laid(words, laid)
}
