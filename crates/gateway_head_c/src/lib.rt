// The functions of gateway_head as C calls them, each with the clauses that it has there.
#![tactic(auto)]

ghost use Rattle.dss_head.specs.Heads.{chunk_of, continuation_length, flags_byte, flags_of, head_at, is_full, length_of, type_at};
ghost use Rattle.std.specs.Prelude.{◌≡◌};
ghost use Rattle.wire.specs.Bytes.{pick};
ghost use Rattle.gateway_head.specs.HeadWords.{chunk_number, head_words, type_words, written_room, written_words};
ghost use Rattle.gateway_words.specs.AnswerWords.{Answered};

#[unsafe(no_mangle)]
pub extern "C" fn lattrugone_decode_dss_length(raw: u16) -> u16
    ensures { result ≡ length_of raw }
{
    gateway_head::head::lattrugone_decode_dss_length(raw)
}

#[unsafe(no_mangle)]
pub extern "C" fn lattrugone_is_full_continuation_len(raw: u16) -> u8
    ensures { result ≡ pick (is_full raw) 1 0 }
{
    gateway_head::head::lattrugone_is_full_continuation_len(raw)
}

#[unsafe(no_mangle)]
pub extern "C" fn lattrugone_decode_continuation_len(raw: u16) -> usize
    ensures { result ≡ continuation_length raw }
{
    gateway_head::head::lattrugone_decode_continuation_len(raw)
}

#[unsafe(no_mangle)]
pub extern "C" fn lattrugone_decide_continuation(raw: u16) -> u8
    ensures { result ≡ chunk_number (chunk_of raw) }
{
    gateway_head::head::lattrugone_decide_continuation(raw)
}

#[unsafe(no_mangle)]
pub extern "C" fn lattrugone_type_from_byte(b: u8, words: &mut [u64]) -> u8
    ensures { Answered (type_words (type_at b 0)) words.old result words.new }
{
    gateway_head::head::lattrugone_type_from_byte(b, words)
}

#[unsafe(no_mangle)]
pub extern "C" fn lattrugone_flags_from_byte(b: u8) -> u8
    ensures { result ≡ flags_byte (flags_of b) }
{
    gateway_head::head::lattrugone_flags_from_byte(b)
}

#[unsafe(no_mangle)]
pub extern "C" fn lattrugone_head_parse(data: &[u8], words: &mut [u64]) -> u8
    ensures { Answered (head_words (head_at «data».now 0)) words.old result words.new }
{
    gateway_head::head::lattrugone_head_parse(data, words)
}

#[unsafe(no_mangle)]
pub extern "C" fn lattrugone_head_serialize(
    length: u16,
    dss_type: u8,
    flags: u8,
    correlation_id: u16,
    room: &mut [u8],
    words: &mut [u64],
) -> u8
    ensures answered { Answered (written_words (type_at dss_type 0) room.old) words.old result words.new }
    ensures room_after { room.new ≡ written_room length (type_at dss_type 0) flags correlation_id room.old }
{
    gateway_head::head::lattrugone_head_serialize(
        length,
        dss_type,
        flags,
        correlation_id,
        room,
        words,
    )
}
