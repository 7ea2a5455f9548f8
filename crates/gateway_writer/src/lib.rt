// The writer for C and Rust: document 01, module 2. Slices, numbers and words go as in the crate gateway_head. A writer goes in as
// its correlation and its fill mark; a type is its byte, refused as by type_from_byte behind 10; yes is any byte but 0.
// A `usize` goes into a word by `as`: Rust has no `From` for it.
#![tactic(auto)]

ghost use Rattle.std.specs.Prelude.{◌≡◌, true, false, Ok};
ghost use Rattle.answer.specs.Rooms.{capped};
ghost use Rattle.dss_head.specs.Heads.{type_at, bit};
ghost use Rattle.dss_head.specs.declared.DssType.TheVariants.{Request as asRequest, Object as asObject, NoReply as asNoReply};
ghost use Rattle.dss_frame.specs.Written.{written, frame_size};
ghost use Rattle.dss_writer.specs.Writer.{fresh_writer, next_correlation};
ghost use Rattle.gateway_words.specs.AnswerWords.{Answered, LaysInWords};
ghost use Rattle.gateway_writer.specs.WriterWords.{writer_of, frame_of, yes, wrote_words, mark_first, Sends};

use answer::Refused;
use dss_head::{DssFlags, DssType};
use dss_writer::DssWriter;
use gateway_words::{put_done, put_laid, put_refusal};

// The writer after a frame, as its correlation and its fill mark, or why nothing was written.
pub(crate) fn put_wrote(words: &mut [u64], wrote: Result<DssWriter, Refused>) -> u8
    ensures { Answered (wrote_words wrote) words.old result words.new }
{
    match wrote {
        Ok(writer) => put_done(
            words,
            u64::from(writer.correlation_id),
            writer.fill as u64,
            0,
            0,
        ),
        Err(refused) => put_refusal(words, refused),
    }
}

// Another refusal, unless the fill mark is beyond the room: 10 comes first.
pub(crate) fn mark_first(fill: usize, size: usize, refused: Refused) -> Refused
    ensures { result ≡ mark_first fill size refused }
{
    if size < fill {
        Refused::out_of_bounds(fill, size)
    } else {
        refused
    }
}

// The bytes that a frame takes, of its payload's length; 2^64 - 1 where they are more.
pub fn lattrugone_frame_size(payload_len: usize) -> usize
    ensures { result ≡ capped (frame_size payload_len) }
{
    dss_writer::frame_size(payload_len)
}

pub fn lattrugone_next_correlation_id(id: u16) -> u16
    ensures { result ≡ (next_correlation (fresh_writer id)).correlation_id }
{
    DssWriter::new(id).next_correlation_id().correlation_id
}

// ---- a frame from the fill mark on. The result: the correlation, and the fill mark behind the frame. The functions' names and
// parameters are C's. Each calls the writer's function of its name, and not all of them the widest, so that the comparison with the
// Rust runs each.

// Of the flags' byte, 0x40 is chained and 0x10 same correlation; continue on error is never set.
pub fn lattrugone_write_dss_full(
    correlation_id: u16,
    fill: usize,
    dss_type: u8,
    flags: u8,
    payload: &[u8],
    room: &mut [u8],
    words: &mut [u64],
) -> u8
    ensures { Sends (type_at dss_type 0) (writer_of correlation_id fill) (frame_of correlation_id (bit 0x40 flags) (bit 0x10 flags) payload.now) room.old words.old result room.new words.new }
{
    let writer = DssWriter {
        correlation_id,
        fill,
    };
    let has = DssFlags::from_byte(flags);
    let wrote = match DssType::from_byte(dss_type) {
        Ok(is) => writer.write_dss_full(is, has.chained, has.same_correlation, payload, room),
        Err(refused) => Err(mark_first(fill, room.len(), refused)),
    };
    put_wrote(words, wrote)
}

pub fn lattrugone_write_dss(
    correlation_id: u16,
    fill: usize,
    dss_type: u8,
    chained: u8,
    payload: &[u8],
    room: &mut [u8],
    words: &mut [u64],
) -> u8
    ensures { Sends (type_at dss_type 0) (writer_of correlation_id fill) (frame_of correlation_id (yes chained) false payload.now) room.old words.old result room.new words.new }
{
    let writer = DssWriter {
        correlation_id,
        fill,
    };
    let wrote = match DssType::from_byte(dss_type) {
        Ok(is) => writer.write_dss(is, chained > 0, payload, room),
        Err(refused) => Err(mark_first(fill, room.len(), refused)),
    };
    put_wrote(words, wrote)
}

pub fn lattrugone_write_request(
    correlation_id: u16,
    fill: usize,
    chained: u8,
    payload: &[u8],
    room: &mut [u8],
    words: &mut [u64],
) -> u8
    ensures { Sends (Ok asRequest) (writer_of correlation_id fill) (frame_of correlation_id (yes chained) false payload.now) room.old words.old result room.new words.new }
{
    let writer = DssWriter {
        correlation_id,
        fill,
    };
    let wrote = writer.write_request(payload, chained > 0, room);
    put_wrote(words, wrote)
}

pub fn lattrugone_write_request_no_reply(
    correlation_id: u16,
    fill: usize,
    chained: u8,
    payload: &[u8],
    room: &mut [u8],
    words: &mut [u64],
) -> u8
    ensures { Sends (Ok asNoReply) (writer_of correlation_id fill) (frame_of correlation_id (yes chained) false payload.now) room.old words.old result room.new words.new }
{
    let writer = DssWriter {
        correlation_id,
        fill,
    };
    let wrote = writer.write_request_no_reply(payload, chained > 0, room);
    put_wrote(words, wrote)
}

pub fn lattrugone_write_object(
    correlation_id: u16,
    fill: usize,
    chained: u8,
    payload: &[u8],
    room: &mut [u8],
    words: &mut [u64],
) -> u8
    ensures { Sends (Ok asObject) (writer_of correlation_id fill) (frame_of correlation_id (yes chained) false payload.now) room.old words.old result room.new words.new }
{
    let writer = DssWriter {
        correlation_id,
        fill,
    };
    let wrote = writer.write_object(payload, chained > 0, room);
    put_wrote(words, wrote)
}

pub fn lattrugone_write_object_same_corr(
    correlation_id: u16,
    fill: usize,
    chained: u8,
    payload: &[u8],
    room: &mut [u8],
    words: &mut [u64],
) -> u8
    ensures { Sends (Ok asObject) (writer_of correlation_id fill) (frame_of correlation_id (yes chained) true payload.now) room.old words.old result room.new words.new }
{
    let writer = DssWriter {
        correlation_id,
        fill,
    };
    let wrote = writer.write_object_same_corr(payload, chained > 0, room);
    put_wrote(words, wrote)
}

pub fn lattrugone_write_request_next_same_corr(
    correlation_id: u16,
    fill: usize,
    chained: u8,
    payload: &[u8],
    room: &mut [u8],
    words: &mut [u64],
) -> u8
    ensures { Sends (Ok asRequest) (writer_of correlation_id fill) (frame_of correlation_id (yes chained) true payload.now) room.old words.old result room.new words.new }
{
    let writer = DssWriter {
        correlation_id,
        fill,
    };
    let wrote = writer.write_request_next_same_corr(payload, chained > 0, room);
    put_wrote(words, wrote)
}

// ---- a frame at the room's first byte. The result: how many bytes were laid down. The names are C's; each is one call.

pub fn lattrugone_build_dss_request(
    correlation_id: u16,
    chained: u8,
    payload: &[u8],
    room: &mut [u8],
    words: &mut [u64],
) -> u8
    ensures { LaysInWords (written (frame_of correlation_id (yes chained) false payload.now asRequest)) room.old words.old result room.new words.new }
{
    let laid = dss_writer::build_dss_request(correlation_id, chained > 0, payload, room);
    put_laid(words, laid)
}

pub fn lattrugone_build_dss_object(
    correlation_id: u16,
    chained: u8,
    payload: &[u8],
    room: &mut [u8],
    words: &mut [u64],
) -> u8
    ensures { LaysInWords (written (frame_of correlation_id (yes chained) false payload.now asObject)) room.old words.old result room.new words.new }
{
    let laid = dss_writer::build_dss_object(correlation_id, chained > 0, payload, room);
    put_laid(words, laid)
}
