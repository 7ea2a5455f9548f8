// The functions of gateway_object as C calls them, each with the clauses that it has there.
#![tactic(auto)]

ghost use Rattle.gateway_words.specs.AnswerWords.{Answered, LaysInWords};
ghost use Rattle.ddm_length.specs.Lengths.{marshaled};
ghost use Rattle.gateway_object.specs.ObjectWords.{ReadsObject, ReadsParam, i32_words, length_words, step_words, u16_words, u32_words};
ghost use Rattle.ddm_length.specs.Markers.{unmarked};
ghost use Rattle.ddm_object.specs.ObjectCalls.{i32_of, param_step_at, u16_of, u32_of};
ghost use Rattle.answer.specs.Rooms.{capped};
ghost use Rattle.std.specs.Prelude.{◌≡◌};
ghost use Rattle.ddm_builder.specs.Built.{built_size};

#[unsafe(no_mangle)]
pub extern "C" fn lattrugone_parse_marshaled_length(data: &[u8], words: &mut [u64]) -> u8
    ensures { Answered (length_words (marshaled «data».now 0)) words.old result words.new }
{
    gateway_object::lattrugone_parse_marshaled_length(data, words)
}

#[unsafe(no_mangle)]
pub extern "C" fn lattrugone_strip_markers(data: &[u8], room: &mut [u8], words: &mut [u64]) -> u8
    ensures { LaysInWords (unmarked «data».now) room.old words.old result room.new words.new }
{
    gateway_object::lattrugone_strip_markers(data, room, words)
}

#[unsafe(no_mangle)]
pub extern "C" fn lattrugone_object(run: &[u8], at: usize, work: &mut [u8], words: &mut [u64]) -> u8
    ensures { ReadsObject run.now at work.old words.old result work.new words.new }
{
    gateway_object::lattrugone_object(run, at, work, words)
}

#[unsafe(no_mangle)]
pub extern "C" fn lattrugone_find_param(
    data: &[u8],
    code_point: u16,
    work: &mut [u8],
    words: &mut [u64],
) -> u8
    ensures { ReadsParam «data».now code_point work.old words.old result work.new words.new }
{
    gateway_object::lattrugone_find_param(data, code_point, work, words)
}

#[unsafe(no_mangle)]
pub extern "C" fn lattrugone_param_step(data: &[u8], at: usize, words: &mut [u64]) -> u8
    ensures { Answered (step_words (param_step_at «data».now at)) words.old result words.new }
{
    gateway_object::lattrugone_param_step(data, at, words)
}

#[unsafe(no_mangle)]
pub extern "C" fn lattrugone_object_total_length(data_len: usize) -> usize
    ensures { result ≡ capped (built_size data_len) }
{
    gateway_object::lattrugone_object_total_length(data_len)
}

#[unsafe(no_mangle)]
pub extern "C" fn lattrugone_as_u16(data: &[u8], words: &mut [u64]) -> u8
    ensures { Answered (u16_words (u16_of «data».now)) words.old result words.new }
{
    gateway_object::lattrugone_as_u16(data, words)
}

#[unsafe(no_mangle)]
pub extern "C" fn lattrugone_as_u32(data: &[u8], words: &mut [u64]) -> u8
    ensures { Answered (u32_words (u32_of «data».now)) words.old result words.new }
{
    gateway_object::lattrugone_as_u32(data, words)
}

#[unsafe(no_mangle)]
pub extern "C" fn lattrugone_as_i32(data: &[u8], words: &mut [u64]) -> u8
    ensures { Answered (i32_words (i32_of «data».now)) words.old result words.new }
{
    gateway_object::lattrugone_as_i32(data, words)
}
