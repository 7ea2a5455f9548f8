// Module 1 of document 01: raw lengths, types, flags, heads.
ghost use Rattle.std.specs.Prelude.{◌≡◌};
ghost use Rattle.wire.specs.Bytes.{pick};
ghost use Rattle.dss_head.specs.Heads.{length_of, is_full, continuation_length, chunk_of, type_at, flags_of, flags_byte, head_at};
ghost use Rattle.gateway_words.specs.AnswerWords.{Answered};
ghost use Rattle.gateway_head.specs.HeadWords.{chunk_number, type_words, head_words, written_words, written_room};

use dss_head::{Chunk, DssFlags, DssHeader, DssType};
use gateway_words::{put_done, put_laid, put_refusal};

pub fn lattrugone_decode_dss_length(raw: u16) -> u16
    ensures { result ≡ length_of raw }
{
    dss_head::decode_dss_length(raw)
}

// 1 where another continuation must follow, else 0.
pub fn lattrugone_is_full_continuation_len(raw: u16) -> u8
    ensures { result ≡ pick (is_full raw) 1 0 }
{
    u8::from(dss_head::is_full_continuation_len(raw))
}

pub fn lattrugone_decode_continuation_len(raw: u16) -> usize
    ensures { result ≡ continuation_length raw }
{
    dss_head::decode_continuation_len(raw)
}

// 0 dead, 1 the last, 2 full: numbers, as C says it.
pub fn lattrugone_decide_continuation(raw: u16) -> u8
    ensures { result ≡ chunk_number (chunk_of raw) }
{
    match dss_head::decide_continuation(raw) {
        Chunk::Dead => 0,
        Chunk::Last => 1,
        Chunk::Full => 2,
    }
}

// The result: the type's byte.
pub fn lattrugone_type_from_byte(b: u8, words: &mut [u64]) -> u8
    ensures { Answered (type_words (type_at b 0)) words.old result words.new }
{
    match DssType::from_byte(b) {
        Ok(dss_type) => put_done(words, u64::from(dss_type.to_byte()), 0, 0, 0),
        Err(refused) => put_refusal(words, refused),
    }
}

// The flags in a format byte, as their own byte.
pub fn lattrugone_flags_from_byte(b: u8) -> u8
    ensures { result ≡ flags_byte (flags_of b) }
{
    DssFlags::from_byte(b).to_byte()
}

// The result: length, the type's byte, the flags' byte, correlation.
pub fn lattrugone_head_parse(data: &[u8], words: &mut [u64]) -> u8
    ensures { Answered (head_words (head_at «data».now 0)) words.old result words.new }
{
    match DssHeader::parse(data) {
        Ok(head) => put_done(
            words,
            u64::from(head.length),
            u64::from(head.dss_type.to_byte()),
            u64::from(head.flags.to_byte()),
            u64::from(head.correlation_id),
        ),
        Err(refused) => put_refusal(words, refused),
    }
}

// The result: how many bytes were laid down at the room's start. A type's byte is refused as by type_from_byte.
pub fn lattrugone_head_serialize(
    length: u16,
    dss_type: u8,
    flags: u8,
    correlation_id: u16,
    room: &mut [u8],
    words: &mut [u64],
) -> u8
    ensures answered { Answered (written_words (type_at dss_type 0) room.old) words.old result words.new }
    ensures room_after { room.new ≡ written_room length (type_at dss_type 0) flags correlation_id room.old }
{
    match DssType::from_byte(dss_type) {
        Ok(dss_type) => {
            let head = DssHeader {
                length,
                dss_type,
                flags: DssFlags::from_byte(flags),
                correlation_id,
            };
            put_laid(words, head.serialize(room))
        }
        Err(refused) => put_refusal(words, refused),
    }
}
