// Building DDM objects: document 01, "DDM", "Building".
#![tactic(auto)]

ghost use Rattle.std.specs.Prelude.{◌≡◌, ◌+◌, ◌<◌, length};
ghost use Rattle.wire.specs.Bytes.{last, laid};
ghost use Rattle.answer.specs.Rooms.{capped, Lays};
ghost use Rattle.ddm_builder.specs.Built.{length_bytes, built, built_size};
ghost use Rattle.ddm_builder.specs.Builder.{fresh_builder, Adds, parameter16, parameter32, Builds, builder_total};
ghost use Rattle.ddm_builder.specs.inner.FormsLaid.{raw_length, LaysAt};
ghost use Rattle.ddm_builder.specs.Headers.{header_of};

use answer::Refused;

const DDM_HEADER_LEN: usize = 4;

// A builder's state: the object's code point, and how much of the lent room is filled with its data. The room is lent to each call:
// nothing is allocated, and C keeps it. So the fill mark stands in the state, and no `Vec`.
#[derive(Clone, Copy)]
pub struct DdmBuilder {
    pub code_point: u16,
    pub fill: usize,
}

// How many length bytes so much data takes.
pub fn extended_length_byte_count(n: usize) -> usize
    ensures { result ≡ length_bytes n }
{
    if n <= 32_763 {
        return 0;
    }
    if n <= 2_147_483_643 {
        return 4;
    }
    if n <= 140_737_488_355_323 {
        return 6;
    }
    8
}

// How long the header of so much data is.
pub fn serialized_header_len(n: usize) -> usize
    ensures { result ≡ 4 + length_bytes n }
{
    DDM_HEADER_LEN + extended_length_byte_count(n)
}

// How many bytes an object of so much data is; above 2^64 - 1 it is given as that.
pub fn built_size(n: usize) -> usize
    ensures { result ≡ capped (built_size n) }
{
    serialized_header_len(n).saturating_add(n)
}

// Lays a number's last bytes down at the room's start, the last one first, where it has room for them. By division, and no copy of
// `to_be_bytes`: the compiler would make a call of the C library's `memcpy` of that, and the archive is to need no other library.
pub(crate) fn lay_number(room: &mut [u8], width: usize, n: usize)
    ensures { room.new ≡ laid room.old 0 (last width n) }
{
    if room.len() < width {
        return;
    }
    let mut left = n;
    for i in (0..width).rev() {
        room[i] = (left % 256) as u8;
        left /= 256;
    }
}

// The raw length in a header with so many length bytes, of so much data. `as`, and no `try_from`: it fits, by what is required.
pub(crate) fn raw_length(width: usize, n: usize) -> u16
    requires { raw_length width n < 65536 }
    ensures { result ≡ raw_length width n }
{
    if width == 0 {
        (n + DDM_HEADER_LEN) as u16
    } else {
        (0x8004 + width) as u16
    }
}

// Lays the header of an object with so much data down at the room's start, length bytes and all, where it has room for it.
pub fn lay_header(cp: u16, n: usize, room: &mut [u8])
    ensures { room.new ≡ laid room.old 0 (header_of cp n) }
{
    let width = extended_length_byte_count(n);
    if room.len() < DDM_HEADER_LEN + width {
        return;
    }
    wire::put_u16(room, raw_length(width, n));
    wire::put_u16(&mut room[2..], cp);
    lay_number(&mut room[4..], width, n);
}

// Lays an object down at the room's start: header, data; where it has room for them.
pub(crate) fn lay_object(cp: u16, data: &[u8], room: &mut [u8])
    ensures { room.new ≡ laid room.old 0 (built cp «data».now) }
{
    let n = data.len();
    let behind = serialized_header_len(n);
    if room.len() < behind + n {
        return;
    }
    lay_header(cp, n, room);
    wire::copy(data, &mut room[behind..]);
}

// Lays an object down at the room's start: 9 where it is too short, at the place that the call gives a refusal.
pub(crate) fn lay_object_or_refuse(
    place: usize,
    cp: u16,
    data: &[u8],
    room: &mut [u8],
) -> Result<usize, Refused>
    ensures { LaysAt place (built cp «data».now) room.old result room.new }
{
    let need = serialized_header_len(data.len()) + data.len();
    if room.len() < need {
        return Err(Refused::no_room(need, 0, place));
    }
    lay_object(cp, data, room);
    Ok(need)
}

impl DdmBuilder {
    // A builder of an object with no data yet.
    pub fn new(code_point: u16) -> Self
        ensures { result ≡ fresh_builder code_point }
    {
        Self {
            code_point,
            fill: 0,
        }
    }

    // Adds a parameter with a code point and data, from the fill mark onward: 10, 9.
    pub fn add_code_point(self, cp: u16, data: &[u8], room: &mut [u8]) -> Result<Self, Refused>
        ensures { Adds self (built cp «data».now) room.old result room.new }
    {
        let fill = self.fill;
        let need = serialized_header_len(data.len()) + data.len();
        answer::room_for(fill, room.len(), need)?;
        lay_object(cp, data, &mut room[fill..]);
        Ok(Self {
            fill: fill + need,
            ..self
        })
    }

    // Adds a parameter with a number of two bytes.
    pub fn add_u16(self, cp: u16, val: u16, room: &mut [u8]) -> Result<Self, Refused>
        ensures { Adds self (parameter16 cp val) room.old result room.new }
    {
        let two_bytes = val.to_be_bytes();
        self.add_code_point(cp, &two_bytes, room)
    }

    // Adds a parameter with a number of four bytes.
    pub fn add_u32(self, cp: u16, val: u32, room: &mut [u8]) -> Result<Self, Refused>
        ensures { Adds self (parameter32 cp val) room.old result room.new }
    {
        let four_bytes = val.to_be_bytes();
        self.add_code_point(cp, &four_bytes, room)
    }

    // Adds bytes as they are.
    pub fn add_raw(self, data: &[u8], room: &mut [u8]) -> Result<Self, Refused>
        ensures { Adds self «data».now room.old result room.new }
    {
        let fill = self.fill;
        answer::room_for(fill, room.len(), data.len())?;
        wire::copy(data, &mut room[fill..]);
        Ok(Self {
            fill: fill + data.len(),
            ..self
        })
    }

    // Lays the object down at a room's start; its data are the filled part of `content`: 10, 9.
    pub fn build(self, content: &[u8], room: &mut [u8]) -> Result<usize, Refused>
        ensures { Builds self content.now room.old result room.new }
    {
        let fill = self.fill;
        if content.len() < fill {
            return Err(Refused::out_of_bounds(fill, content.len()));
        }
        lay_object_or_refuse(fill, self.code_point, &content[..fill], room)
    }

    // How many bytes the object is; above 2^64 - 1 it is given as that.
    pub fn total_length(self) -> usize
        ensures { result ≡ builder_total self }
    {
        built_size(self.fill)
    }
}

// The functions from here on have the Rust's names and parameters; each is one call of a more general one.

// Lays a parameter down at the room's start.
pub fn build_param(code_point: u16, data: &[u8], room: &mut [u8]) -> Result<usize, Refused>
    ensures { Lays (built code_point «data».now) room.old result room.new }
{
    lay_object_or_refuse(0, code_point, data, room)
}

// Lays a parameter with a number of two bytes down at the room's start.
pub fn build_param_u16(code_point: u16, value: u16, room: &mut [u8]) -> Result<usize, Refused>
    ensures { Lays (parameter16 code_point value) room.old result room.new }
{
    build_param(code_point, &value.to_be_bytes(), room)
}

// Lays an object with this payload down at the room's start.
pub fn build_ddm_object(code_point: u16, payload: &[u8], room: &mut [u8]) -> Result<usize, Refused>
    ensures { Lays (built code_point payload.now) room.old result room.new }
{
    lay_object_or_refuse(0, code_point, payload, room)
}
