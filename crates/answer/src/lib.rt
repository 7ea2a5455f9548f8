// Why a call refuses, and where: document 01, "Answer numbers", and document 02 from 12 on. The Rust's `ProtoError` is 2, 3 and 4 of these.
#![tactic(auto)]

ghost use Rattle.std.specs.Prelude.{◌≡◌, get_or};
ghost use Rattle.answer.specs.Numbers.{number_of, not_whole, values_of};
ghost use Rattle.answer.specs.Rooms.{refused_at, no_room, out_of_bounds, room_for};

#[derive(Clone, Copy)]
pub enum Refusal {
    // 1: the frame isn't whole yet.
    Incomplete,
    // 2: this byte stands where D0 should.
    InvalidMagic(u8),
    // 3: these low four bits are no type.
    InvalidDssType(u8),
    // 4: so many bytes were expected, and so many are there.
    BufferTooShort { expected: usize, actual: usize },
    // 5: an inline DDM length below 4, of this code point.
    InlineTooShort { length: u16, code_point: u16 },
    // 6: an extended DDM header shorter than 4.
    HeaderTooShort(u16),
    // 7: a DSS length below 6.
    LengthTooShort(u16),
    // 8: an extended DDM length too large; its header's length.
    LengthTooLarge(u16),
    // 9: what the result needs.
    NoRoom { bytes: usize, records: usize },
    // 10: a position or fill mark beyond its buffer, of this length.
    OutOfBounds { mark: usize, length: usize },
    // 11: no such parameter, or too few bytes for the number asked.
    NotFound,
    // 16: a continuation length of 0 or 1 stands at the place: the frame is never whole, whatever bytes follow.
    DeadContinuation,
    // 17: parameters that don't reach their data's end, or one with raw length 0x8004; or a request that isn't one frame with one
    // object.
    UnsoundData,
    // 18: a frame whose payload would be 32,761 plus one or more times 32,765 bytes, which the reader says isn't whole.
    UnreadableSize,
}

// A refusal, with the place that document 01 gives it.
#[derive(Clone, Copy)]
pub struct Refused {
    pub why: Refusal,
    pub place: usize,
}

impl Refusal {
    // Document 01's number of it, as C gets it.
    pub fn number(self) -> u8
        ensures { result ≡ number_of self }
    {
        match self {
            Refusal::Incomplete => 1,
            Refusal::InvalidMagic(_) => 2,
            Refusal::InvalidDssType(_) => 3,
            Refusal::BufferTooShort { .. } => 4,
            Refusal::InlineTooShort { .. } => 5,
            Refusal::HeaderTooShort(_) => 6,
            Refusal::LengthTooShort(_) => 7,
            Refusal::LengthTooLarge(_) => 8,
            Refusal::NoRoom { .. } => 9,
            Refusal::OutOfBounds { .. } => 10,
            Refusal::NotFound => 11,
            Refusal::DeadContinuation => 16,
            Refusal::UnsoundData => 17,
            Refusal::UnreadableSize => 18,
        }
    }

    // Whether it says that a frame isn't whole: yet (1), or ever (16).
    pub fn not_whole(self) -> bool
        ensures { result ≡ not_whole self }
    {
        matches!(self, Refusal::Incomplete | Refusal::DeadContinuation)
    }

    // The first value that it carries, 0 where it carries none: a word for C, which has no `Option`.
    pub fn first_value(self) -> usize
        ensures { result ≡ get_or (values_of self) 0 0 }
    {
        match self {
            Refusal::InvalidMagic(byte) | Refusal::InvalidDssType(byte) => usize::from(byte),
            Refusal::BufferTooShort { expected, .. } => expected,
            Refusal::InlineTooShort { length, .. } => usize::from(length),
            Refusal::HeaderTooShort(length)
            | Refusal::LengthTooShort(length)
            | Refusal::LengthTooLarge(length) => usize::from(length),
            Refusal::NoRoom { bytes, .. } => bytes,
            Refusal::OutOfBounds { mark, .. } => mark,
            _ => 0,
        }
    }

    // The second, 0 where there is none.
    pub fn second_value(self) -> usize
        ensures { result ≡ get_or (values_of self) 1 0 }
    {
        match self {
            Refusal::BufferTooShort { actual, .. } => actual,
            Refusal::InlineTooShort { .. } => 4,
            Refusal::NoRoom { records, .. } => records,
            Refusal::OutOfBounds { length, .. } => length,
            _ => 0,
        }
    }

    // The third, 0 where there is none.
    pub fn third_value(self) -> usize
        ensures { result ≡ get_or (values_of self) 2 0 }
    {
        match self {
            Refusal::InlineTooShort { code_point, .. } => usize::from(code_point),
            _ => 0,
        }
    }

    // It, at a place.
    pub fn at(self, place: usize) -> Refused
        ensures { result ≡ refused_at self place }
    {
        Refused { why: self, place }
    }
}

impl Refused {
    // 9 at a place, with the bytes and the records that are needed.
    pub fn no_room(bytes: usize, records: usize, place: usize) -> Refused
        ensures { result ≡ no_room place bytes records }
    {
        Refusal::NoRoom { bytes, records }.at(place)
    }

    // 10 at a mark or position, with the length of what it is beyond.
    pub fn out_of_bounds(mark: usize, length: usize) -> Refused
        ensures { result ≡ out_of_bounds mark length }
    {
        Refusal::OutOfBounds { mark, length }.at(mark)
    }
}

// Whether `need` bytes can be laid down from a fill mark of a room of `size` bytes: 10, then 9.
pub fn room_for(mark: usize, size: usize, need: usize) -> Result<(), Refused>
    ensures { result ≡ room_for mark size need }
{
    if size < mark {
        return Err(Refused::out_of_bounds(mark, size));
    }
    if size - mark < need {
        return Err(Refused::no_room(need, 0, mark));
    }
    Ok(())
}
