// The functions of gateway_writer as C calls them, each with the clauses that it has there.
#![tactic(auto)]

ghost use Rattle.answer.specs.Rooms.{capped};
ghost use Rattle.dss_frame.specs.Written.{frame_size, written};
ghost use Rattle.std.specs.Prelude.{false, true, ◌≡◌, Ok};
ghost use Rattle.dss_writer.specs.Writer.{fresh_writer, next_correlation};
ghost use Rattle.gateway_writer.specs.WriterWords.{Sends, frame_of, writer_of, yes};
ghost use Rattle.dss_head.specs.Heads.{bit, type_at};
ghost use Rattle.gateway_words.specs.AnswerWords.{LaysInWords};
ghost use Rattle.dss_head.specs.declared.DssType.TheVariants.{Request as asRequest, Object as asObject, NoReply as asNoReply};

#[unsafe(no_mangle)]
pub extern "C" fn lattrugone_frame_size(payload_len: usize) -> usize
    ensures { result ≡ capped (frame_size payload_len) }
{
    gateway_writer::lattrugone_frame_size(payload_len)
}

#[unsafe(no_mangle)]
pub extern "C" fn lattrugone_next_correlation_id(id: u16) -> u16
    ensures { result ≡ (next_correlation (fresh_writer id)).correlation_id }
{
    gateway_writer::lattrugone_next_correlation_id(id)
}

#[unsafe(no_mangle)]
pub extern "C" fn lattrugone_write_dss_full(
    correlation_id: u16,
    fill: usize,
    dss_type: u8,
    flags: u8,
    payload: &[u8],
    room: &mut [u8],
    words: &mut [u64],
) -> u8
    ensures { Sends (type_at dss_type 0) (writer_of correlation_id fill) (frame_of correlation_id (bit 0x40 flags) (bit 0x10 flags) payload.now) room.old words.old result room.new words.new }
{
    gateway_writer::lattrugone_write_dss_full(
        correlation_id,
        fill,
        dss_type,
        flags,
        payload,
        room,
        words,
    )
}

#[unsafe(no_mangle)]
pub extern "C" fn lattrugone_write_dss(
    correlation_id: u16,
    fill: usize,
    dss_type: u8,
    chained: u8,
    payload: &[u8],
    room: &mut [u8],
    words: &mut [u64],
) -> u8
    ensures { Sends (type_at dss_type 0) (writer_of correlation_id fill) (frame_of correlation_id (yes chained) false payload.now) room.old words.old result room.new words.new }
{
    gateway_writer::lattrugone_write_dss(
        correlation_id,
        fill,
        dss_type,
        chained,
        payload,
        room,
        words,
    )
}

#[unsafe(no_mangle)]
pub extern "C" fn lattrugone_write_request(
    correlation_id: u16,
    fill: usize,
    chained: u8,
    payload: &[u8],
    room: &mut [u8],
    words: &mut [u64],
) -> u8
    ensures { Sends (Ok asRequest) (writer_of correlation_id fill) (frame_of correlation_id (yes chained) false payload.now) room.old words.old result room.new words.new }
{
    gateway_writer::lattrugone_write_request(correlation_id, fill, chained, payload, room, words)
}

#[unsafe(no_mangle)]
pub extern "C" fn lattrugone_write_request_no_reply(
    correlation_id: u16,
    fill: usize,
    chained: u8,
    payload: &[u8],
    room: &mut [u8],
    words: &mut [u64],
) -> u8
    ensures { Sends (Ok asNoReply) (writer_of correlation_id fill) (frame_of correlation_id (yes chained) false payload.now) room.old words.old result room.new words.new }
{
    gateway_writer::lattrugone_write_request_no_reply(
        correlation_id,
        fill,
        chained,
        payload,
        room,
        words,
    )
}

#[unsafe(no_mangle)]
pub extern "C" fn lattrugone_write_object(
    correlation_id: u16,
    fill: usize,
    chained: u8,
    payload: &[u8],
    room: &mut [u8],
    words: &mut [u64],
) -> u8
    ensures { Sends (Ok asObject) (writer_of correlation_id fill) (frame_of correlation_id (yes chained) false payload.now) room.old words.old result room.new words.new }
{
    gateway_writer::lattrugone_write_object(correlation_id, fill, chained, payload, room, words)
}

#[unsafe(no_mangle)]
pub extern "C" fn lattrugone_write_object_same_corr(
    correlation_id: u16,
    fill: usize,
    chained: u8,
    payload: &[u8],
    room: &mut [u8],
    words: &mut [u64],
) -> u8
    ensures { Sends (Ok asObject) (writer_of correlation_id fill) (frame_of correlation_id (yes chained) true payload.now) room.old words.old result room.new words.new }
{
    gateway_writer::lattrugone_write_object_same_corr(
        correlation_id,
        fill,
        chained,
        payload,
        room,
        words,
    )
}

#[unsafe(no_mangle)]
pub extern "C" fn lattrugone_write_request_next_same_corr(
    correlation_id: u16,
    fill: usize,
    chained: u8,
    payload: &[u8],
    room: &mut [u8],
    words: &mut [u64],
) -> u8
    ensures { Sends (Ok asRequest) (writer_of correlation_id fill) (frame_of correlation_id (yes chained) true payload.now) room.old words.old result room.new words.new }
{
    gateway_writer::lattrugone_write_request_next_same_corr(
        correlation_id,
        fill,
        chained,
        payload,
        room,
        words,
    )
}

#[unsafe(no_mangle)]
pub extern "C" fn lattrugone_build_dss_request(
    correlation_id: u16,
    chained: u8,
    payload: &[u8],
    room: &mut [u8],
    words: &mut [u64],
) -> u8
    ensures { LaysInWords (written (frame_of correlation_id (yes chained) false payload.now asRequest)) room.old words.old result room.new words.new }
{
    gateway_writer::lattrugone_build_dss_request(correlation_id, chained, payload, room, words)
}

#[unsafe(no_mangle)]
pub extern "C" fn lattrugone_build_dss_object(
    correlation_id: u16,
    chained: u8,
    payload: &[u8],
    room: &mut [u8],
    words: &mut [u64],
) -> u8
    ensures { LaysInWords (written (frame_of correlation_id (yes chained) false payload.now asObject)) room.old words.old result room.new words.new }
{
    gateway_writer::lattrugone_build_dss_object(correlation_id, chained, payload, room, words)
}
