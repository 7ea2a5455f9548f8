// The head of a DSS segment: lengths, type, flags. Document 01, module 1; the top of the Rust's dss.rs.
#![tactic(auto)]

ghost use Rattle.std.specs.Prelude.{◌≡◌};
ghost use Rattle.answer.specs.Rooms.{Lays};
ghost use Rattle.dss_head.specs.Heads.{length_of, is_full, continuation_length, chunk_of, type_at, type_byte, flags_of, flags_byte, no_flags, head_at, head_bytes};

use answer::{Refusal, Refused};

pub const DSS_MAGIC: u8 = 0xD0;

pub const DSS_HEADER_LEN: usize = 6;
// The most bytes that one segment has.
pub const DSS_MAX_SEGMENT_LEN: u16 = 32767;
// The raw length of a segment that has them all and isn't its frame's last.
pub const DSS_CONTINUED: u16 = 0xFFFF;
// The bytes of such a segment: 32,767.
pub const DSS_FULL_SEGMENT_LEN: usize = DSS_MAX_SEGMENT_LEN as usize;
// The bytes of a continuation's length.
pub const DSS_CONTINUATION_HEADER_LEN: usize = 2;
// The payload bytes of a full first segment: 32,761.
pub const DSS_FIRST_PAYLOAD_LEN: usize = DSS_FULL_SEGMENT_LEN - DSS_HEADER_LEN;
// The payload bytes of a full continuation: 32,765.
pub const DSS_CONTINUATION_PAYLOAD_LEN: usize = DSS_FULL_SEGMENT_LEN - DSS_CONTINUATION_HEADER_LEN;
// The numbers of the types go from 1 to this one.
pub const DSS_LAST_TYPE: u8 = 5;

#[derive(Clone, Copy, PartialEq, Eq)]
pub enum DssType {
    Request,
    Reply,
    Object,
    Communication,
    // A request that wants no reply.
    NoReply,
}

#[derive(Clone, Copy, PartialEq, Eq)]
pub struct DssFlags {
    pub chained: bool,
    pub continue_on_error: bool,
    pub same_correlation: bool,
}

#[derive(Clone, Copy, PartialEq, Eq)]
pub struct DssHeader {
    pub length: u16,
    pub dss_type: DssType,
    pub flags: DssFlags,
    pub correlation_id: u16,
}

// What a continuation length says: document 01, "Reading".
#[derive(Clone, Copy, PartialEq, Eq)]
pub enum Chunk {
    // 0 and 1: never whole.
    Dead,
    // 2 to 0x7FFE and 0x8000 to 0xFFFE: so many bytes, and it is the last.
    Last,
    // 0x7FFF and 0xFFFF: 32,767 bytes, and another must follow.
    Full,
}

// The length that a head's raw length says.
pub fn decode_dss_length(raw_length: u16) -> u16
    ensures { result ≡ length_of raw_length }
{
    if raw_length == DSS_CONTINUED {
        DSS_MAX_SEGMENT_LEN
    } else {
        raw_length
    }
}

// Whether another continuation must follow one of this raw length.
pub fn is_full_continuation_len(raw_length: u16) -> bool
    ensures { result ≡ is_full raw_length }
{
    raw_length == DSS_CONTINUED || raw_length == 0x7FFF
}

// The bytes that a continuation of this raw length takes.
pub fn decode_continuation_len(raw_length: u16) -> usize
    ensures { result ≡ continuation_length raw_length }
{
    if is_full_continuation_len(raw_length) {
        DSS_FULL_SEGMENT_LEN
    } else {
        usize::from(raw_length)
    }
}

// The decision by raw continuation length.
pub fn decide_continuation(raw_length: u16) -> Chunk
    ensures { result ≡ chunk_of raw_length }
{
    match raw_length {
        0..=1 => Chunk::Dead,
        2..=0x7FFE => Chunk::Last,
        0x7FFF => Chunk::Full,
        0x8000..=0xFFFE => Chunk::Last,
        0xFFFF => Chunk::Full,
    }
}

// `from_byte` and `to_byte`, here and of the flags, and no `TryFrom` and `From`: they are the Rust's names, and what calls the
// Rust calls these.
impl DssType {
    // The type in a format byte's low four bits: refusal 3.
    pub fn from_byte(b: u8) -> Result<DssType, Refused>
        ensures { result ≡ type_at b 0 }
    {
        match b % 16 {
            1 => Ok(DssType::Request),
            2 => Ok(DssType::Reply),
            3 => Ok(DssType::Object),
            4 => Ok(DssType::Communication),
            5 => Ok(DssType::NoReply),
            low => Err(Refusal::InvalidDssType(low).at(0)),
        }
    }

    pub fn to_byte(self) -> u8
        ensures { result ≡ type_byte self }
    {
        match self {
            DssType::Request => 1,
            DssType::Reply => 2,
            DssType::Object => 3,
            DssType::Communication => 4,
            DssType::NoReply => 5,
        }
    }
}

impl DssFlags {
    pub fn none() -> Self
        ensures { result ≡ no_flags }
    {
        Self {
            chained: false,
            continue_on_error: false,
            same_correlation: false,
        }
    }

    pub fn to_byte(self) -> u8
        ensures { result ≡ flags_byte self }
    {
        u8::from(self.chained) * 0x40
            + u8::from(self.continue_on_error) * 0x20
            + u8::from(self.same_correlation) * 0x10
    }

    // The flags in a format byte's high bits; 0x80 is dropped.
    pub fn from_byte(b: u8) -> Self
        ensures { result ≡ flags_of b }
    {
        Self {
            chained: b / 0x40 % 2 == 1,
            continue_on_error: b / 0x20 % 2 == 1,
            same_correlation: b / 0x10 % 2 == 1,
        }
    }
}

impl DssHeader {
    // The head that the first six bytes are: refusals 4, 2, 3.
    pub fn parse(data: &[u8]) -> Result<DssHeader, Refused>
        ensures { result ≡ head_at «data».now 0 }
    {
        if data.len() < DSS_HEADER_LEN {
            let why = Refusal::BufferTooShort {
                expected: DSS_HEADER_LEN,
                actual: data.len(),
            };
            return Err(why.at(0));
        }
        let magic = data[2];
        if magic != DSS_MAGIC {
            return Err(Refusal::InvalidMagic(magic).at(0));
        }
        let format = data[3];
        let dss_type = DssType::from_byte(format)?;
        Ok(DssHeader {
            length: decode_dss_length(wire::u16_at(data, 0)),
            dss_type,
            flags: DssFlags::from_byte(format),
            correlation_id: wire::u16_at(data, 4),
        })
    }

    // The head's six bytes at the room's start, its length as given: refusal 9.
    pub fn serialize(self, room: &mut [u8]) -> Result<usize, Refused>
        ensures { Lays (head_bytes self) room.old result room.new }
    {
        answer::room_for(0, room.len(), DSS_HEADER_LEN)?;
        wire::put_u16(room, self.length);
        room[2] = DSS_MAGIC;
        room[3] = self.dss_type.to_byte() + self.flags.to_byte();
        wire::put_u16(&mut room[4..], self.correlation_id);
        Ok(DSS_HEADER_LEN)
    }
}
