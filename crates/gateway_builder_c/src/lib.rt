// The functions of gateway_builder as C calls them, each with the clauses that it has there.
#![tactic(auto)]

ghost use Rattle.gateway_builder.specs.BuilderWords.{Appends, Makes, adding, builder_of};
ghost use Rattle.ddm_builder.specs.Built.{built};
ghost use Rattle.ddm_builder.specs.Builder.{builder_total, parameter16, parameter32};
ghost use Rattle.std.specs.Prelude.{◌≡◌};
ghost use Rattle.gateway_words.specs.AnswerWords.{LaysInWords};

#[unsafe(no_mangle)]
pub extern "C" fn lattrugone_builder_add_code_point(
    fill: usize,
    cp: u16,
    data: &[u8],
    room: &mut [u8],
    words: &mut [u64],
) -> u8
    ensures { Appends (adding fill) (built cp «data».now) room.old words.old result room.new words.new }
{
    gateway_builder::lattrugone_builder_add_code_point(fill, cp, data, room, words)
}

#[unsafe(no_mangle)]
pub extern "C" fn lattrugone_builder_add_u16(
    fill: usize,
    cp: u16,
    val: u16,
    room: &mut [u8],
    words: &mut [u64],
) -> u8
    ensures { Appends (adding fill) (parameter16 cp val) room.old words.old result room.new words.new }
{
    gateway_builder::lattrugone_builder_add_u16(fill, cp, val, room, words)
}

#[unsafe(no_mangle)]
pub extern "C" fn lattrugone_builder_add_u32(
    fill: usize,
    cp: u16,
    val: u32,
    room: &mut [u8],
    words: &mut [u64],
) -> u8
    ensures { Appends (adding fill) (parameter32 cp val) room.old words.old result room.new words.new }
{
    gateway_builder::lattrugone_builder_add_u32(fill, cp, val, room, words)
}

#[unsafe(no_mangle)]
pub extern "C" fn lattrugone_builder_add_raw(
    fill: usize,
    data: &[u8],
    room: &mut [u8],
    words: &mut [u64],
) -> u8
    ensures { Appends (adding fill) «data».now room.old words.old result room.new words.new }
{
    gateway_builder::lattrugone_builder_add_raw(fill, data, room, words)
}

#[unsafe(no_mangle)]
pub extern "C" fn lattrugone_builder_build(
    code_point: u16,
    fill: usize,
    content: &[u8],
    room: &mut [u8],
    words: &mut [u64],
) -> u8
    ensures { Makes (builder_of code_point fill) content.now room.old words.old result room.new words.new }
{
    gateway_builder::lattrugone_builder_build(code_point, fill, content, room, words)
}

#[unsafe(no_mangle)]
pub extern "C" fn lattrugone_builder_total_length(fill: usize) -> usize
    ensures { result ≡ builder_total (adding fill) }
{
    gateway_builder::lattrugone_builder_total_length(fill)
}

#[unsafe(no_mangle)]
pub extern "C" fn lattrugone_build_param(
    code_point: u16,
    data: &[u8],
    room: &mut [u8],
    words: &mut [u64],
) -> u8
    ensures { LaysInWords (built code_point «data».now) room.old words.old result room.new words.new }
{
    gateway_builder::lattrugone_build_param(code_point, data, room, words)
}

#[unsafe(no_mangle)]
pub extern "C" fn lattrugone_build_param_u16(
    code_point: u16,
    value: u16,
    room: &mut [u8],
    words: &mut [u64],
) -> u8
    ensures { LaysInWords (parameter16 code_point value) room.old words.old result room.new words.new }
{
    gateway_builder::lattrugone_build_param_u16(code_point, value, room, words)
}

#[unsafe(no_mangle)]
pub extern "C" fn lattrugone_build_ddm_object(
    code_point: u16,
    payload: &[u8],
    room: &mut [u8],
    words: &mut [u64],
) -> u8
    ensures { LaysInWords (built code_point payload.now) room.old words.old result room.new words.new }
{
    gateway_builder::lattrugone_build_ddm_object(code_point, payload, room, words)
}
