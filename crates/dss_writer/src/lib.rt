// Writing frames into lent room: document 01, module 2; the Rust's `DssWriter`. The state goes in by value and comes back,
// and the room is lent to each call: nothing is allocated, and C keeps both. So the fill mark stands in the state, and no `Vec`.
// The public functions have the Rust's names and parameters, one for each kind of frame; each is one call of a more general one.
#![tactic(auto)]

ghost use Rattle.std.specs.Prelude.{◌+◌, ◌≤◌, ◌≡◌, true, false, ◌++◌, length};
ghost use Rattle.wire.specs.Bytes.{two, splice};
ghost use Rattle.answer.specs.Rooms.{capped, Lays};
ghost use Rattle.dss_head.specs.declared.DssType.TheVariants.{Request as asRequest, Object as asObject, NoReply as asNoReply};
ghost use Rattle.dss_head.specs.Heads.{head_bytes};
ghost use Rattle.dss_frame.specs.Written.{chunks, written, frame_size};
ghost use Rattle.dss_writer.specs.Writer.{fresh_writer, finished, with_correlation, next_correlation, FilledAt, sent, Writes};
ghost use Rattle.dss_writer.specs.inner.LaidUnder.{raw_length_of, laid_under};

use answer::Refused;
use dss_head::{
    DSS_CONTINUATION_HEADER_LEN, DSS_CONTINUATION_PAYLOAD_LEN, DSS_CONTINUED,
    DSS_FIRST_PAYLOAD_LEN, DSS_FULL_SEGMENT_LEN, DSS_HEADER_LEN, DssFlags, DssHeader, DssType,
};

// A writer's state: the correlation of the frames to come, and how much of the lent room is filled.
#[derive(Clone, Copy)]
pub struct DssWriter {
    pub correlation_id: u16,
    pub fill: usize,
}

// The bytes that a frame takes, of its payload's length; 2^64 - 1 where they are more.
pub fn frame_size(payload_len: usize) -> usize
    ensures { result ≡ capped (frame_size payload_len) }
{
    if payload_len <= DSS_FIRST_PAYLOAD_LEN {
        return payload_len + DSS_HEADER_LEN;
    }
    let above = payload_len - DSS_FIRST_PAYLOAD_LEN;
    // One for each 32,765 bytes or part of them. No `div_ceil`, which looks at the remainder besides: half again as many instructions.
    let continuations = (above - 1) / DSS_CONTINUATION_PAYLOAD_LEN + 1;
    let framing = DSS_HEADER_LEN + DSS_CONTINUATION_HEADER_LEN * continuations;
    payload_len.saturating_add(framing)
}

// The raw length in the head of a frame, of its payload's length.
pub(crate) fn raw_length(payload_len: usize) -> u16
    ensures { result ≡ raw_length_of payload_len }
{
    if payload_len <= DSS_FIRST_PAYLOAD_LEN {
        // `as` here and below, and no `try_from`: it is proved to fit, and there is no refusal for what can't be.
        (payload_len + DSS_HEADER_LEN) as u16
    } else {
        DSS_CONTINUED
    }
}

// A frame's first segment at the room's start: its head, and its bytes.
pub(crate) fn lay_segment(header: DssHeader, bytes: &[u8], room: &mut [u8])
    requires { 6 + length bytes.now ≤ length room.old }
    ensures { room.new ≡ splice room.old 0 (head_bytes header ++ bytes.now) }
{
    let behind = header.serialize(room).unwrap();
    wire::lay_at(bytes, room, behind);
}

// A continuation at the room's start: its length, and its bytes.
pub(crate) fn lay_chunk(raw_length: u16, bytes: &[u8], room: &mut [u8])
    requires { 2 + length bytes.now ≤ length room.old }
    ensures { room.new ≡ splice room.old 0 (two raw_length ++ bytes.now) }
{
    wire::put_u16(room, raw_length);
    wire::copy(bytes, &mut room[DSS_CONTINUATION_HEADER_LEN..]);
}

// The continuations of what the first segment left, at the room's start.
pub(crate) fn lay_chunks(bytes: &[u8], room: &mut [u8])
    requires { length (chunks bytes.now) ≤ length room.old }
    ensures { room.new ≡ splice room.old 0 (chunks bytes.now) }
{
    // All but the last are full. With no bytes there is one, too. By place: a proof doesn't see what is written through chunks_exact_mut.
    let full = bytes.len().saturating_sub(1) / DSS_CONTINUATION_PAYLOAD_LEN;
    for i in 0..full {
        let from = i * DSS_CONTINUATION_PAYLOAD_LEN;
        let end = from + DSS_CONTINUATION_PAYLOAD_LEN;
        lay_chunk(
            DSS_CONTINUED,
            &bytes[from..end],
            &mut room[i * DSS_FULL_SEGMENT_LEN..],
        );
    }
    let last = &bytes[full * DSS_CONTINUATION_PAYLOAD_LEN..];
    let raw_length = (last.len() + DSS_CONTINUATION_HEADER_LEN) as u16;
    lay_chunk(raw_length, last, &mut room[full * DSS_FULL_SEGMENT_LEN..]);
}

// A frame at the room's start, under a head that has its raw length.
pub(crate) fn lay_frame(header: DssHeader, payload: &[u8], room: &mut [u8])
    requires { frame_size (length payload.now) ≤ length room.old }
    ensures { room.new ≡ splice room.old 0 (laid_under header payload.now) }
{
    if payload.len() <= DSS_FIRST_PAYLOAD_LEN {
        lay_segment(header, payload, room);
    } else {
        lay_segment(header, &payload[..DSS_FIRST_PAYLOAD_LEN], room);
        lay_chunks(
            &payload[DSS_FIRST_PAYLOAD_LEN..],
            &mut room[DSS_FULL_SEGMENT_LEN..],
        );
    }
}

impl DssWriter {
    pub fn new(initial_correlation_id: u16) -> Self
        ensures { result ≡ fresh_writer initial_correlation_id }
    {
        Self {
            correlation_id: initial_correlation_id,
            fill: 0,
        }
    }

    // Empties the writer, and keeps the correlation. What was written is `data`, before.
    pub fn finish(self) -> Self
        ensures { result ≡ finished self }
    {
        Self::new(self.correlation_id)
    }

    // What was written: the room up to the fill mark. Of a mark beyond the room it is the empty part at the room's end.
    pub fn data<'a>(self, room: &'a [u8]) -> &'a [u8]
        ensures { FilledAt room.entry self.fill result }
    {
        if self.fill <= room.len() {
            &room[..self.fill]
        } else {
            &room[room.len()..]
        }
    }

    pub fn correlation_id(self) -> u16
        ensures { result ≡ self.correlation_id }
    {
        self.correlation_id
    }

    pub fn set_correlation_id(self, id: u16) -> Self
        ensures { result ≡ with_correlation self id }
    {
        Self {
            correlation_id: id,
            ..self
        }
    }

    // The next correlation; 0 comes after 65,535.
    pub fn next_correlation_id(self) -> Self
        ensures { result ≡ next_correlation self }
    {
        self.set_correlation_id(self.correlation_id.wrapping_add(1))
    }

    // Lays one frame into the room from the fill mark onward: refusals 10, 9.
    pub fn write_dss_full(
        self,
        dss_type: DssType,
        chained: bool,
        same_correlation: bool,
        payload: &[u8],
        room: &mut [u8],
    ) -> Result<DssWriter, Refused>
        ensures { Writes self (sent self.correlation_id dss_type chained same_correlation payload.now) room.old result room.new }
    {
        let size = frame_size(payload.len());
        answer::room_for(self.fill, room.len(), size)?;
        let header = DssHeader {
            length: raw_length(payload.len()),
            dss_type,
            flags: DssFlags {
                chained,
                continue_on_error: false,
                same_correlation,
            },
            correlation_id: self.correlation_id,
        };
        lay_frame(header, payload, &mut room[self.fill..]);
        Ok(DssWriter {
            fill: self.fill + size,
            ..self
        })
    }

    // Same correlation clear.
    pub fn write_dss(
        self,
        dss_type: DssType,
        chained: bool,
        payload: &[u8],
        room: &mut [u8],
    ) -> Result<DssWriter, Refused>
        ensures { Writes self (sent self.correlation_id dss_type chained false payload.now) room.old result room.new }
    {
        self.write_dss_full(dss_type, chained, false, payload, room)
    }

    pub fn write_request(
        self,
        payload: &[u8],
        chained: bool,
        room: &mut [u8],
    ) -> Result<DssWriter, Refused>
        ensures { Writes self (sent self.correlation_id asRequest chained false payload.now) room.old result room.new }
    {
        self.write_dss(DssType::Request, chained, payload, room)
    }

    // A request that wants no reply: W-210.
    pub fn write_request_no_reply(
        self,
        payload: &[u8],
        chained: bool,
        room: &mut [u8],
    ) -> Result<DssWriter, Refused>
        ensures { Writes self (sent self.correlation_id asNoReply chained false payload.now) room.old result room.new }
    {
        self.write_dss(DssType::NoReply, chained, payload, room)
    }

    pub fn write_object(
        self,
        payload: &[u8],
        chained: bool,
        room: &mut [u8],
    ) -> Result<DssWriter, Refused>
        ensures { Writes self (sent self.correlation_id asObject chained false payload.now) room.old result room.new }
    {
        self.write_dss(DssType::Object, chained, payload, room)
    }

    // An object that goes with the request before it.
    pub fn write_object_same_corr(
        self,
        payload: &[u8],
        chained: bool,
        room: &mut [u8],
    ) -> Result<DssWriter, Refused>
        ensures { Writes self (sent self.correlation_id asObject chained true payload.now) room.old result room.new }
    {
        self.write_dss_full(DssType::Object, chained, true, payload, room)
    }

    // A request whose correlation the next frame shares.
    pub fn write_request_next_same_corr(
        self,
        payload: &[u8],
        chained: bool,
        room: &mut [u8],
    ) -> Result<DssWriter, Refused>
        ensures { Writes self (sent self.correlation_id asRequest chained true payload.now) room.old result room.new }
    {
        self.write_dss_full(DssType::Request, chained, true, payload, room)
    }
}

// One request frame at the room's first byte: refusal 9.
pub fn build_dss_request(
    correlation_id: u16,
    chained: bool,
    payload: &[u8],
    room: &mut [u8],
) -> Result<usize, Refused>
    ensures { Lays (written (sent correlation_id asRequest chained false payload.now)) room.old result room.new }
{
    let writer = DssWriter::new(correlation_id).write_request(payload, chained, room)?;
    Ok(writer.fill)
}

// One object frame at the room's first byte: refusal 9.
pub fn build_dss_object(
    correlation_id: u16,
    chained: bool,
    payload: &[u8],
    room: &mut [u8],
) -> Result<usize, Refused>
    ensures { Lays (written (sent correlation_id asObject chained false payload.now)) room.old result room.new }
{
    let writer = DssWriter::new(correlation_id).write_object(payload, chained, room)?;
    Ok(writer.fill)
}
