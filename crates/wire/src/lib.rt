// Bytes and two-byte numbers of a run, most significant byte first. The laws on parts of lists, on `splice` and on numbers
// of any width are in specs/.
#![tactic(auto)]

ghost use Rattle.std.specs.Prelude.{◌≡◌, [], ◌∷◌, ◌+◌, ◌≤◌, length, get_or};
ghost use Rattle.wire.specs.Bytes.{be16, marker, two, splice, laid};

// The byte at a place; 0 beyond the run.
pub fn byte_at(s: &[u8], at: usize) -> u8
    ensures { result ≡ get_or s.now at 0 }
{
    s.get(at).copied().unwrap_or(0)
}

// The number of two bytes.
pub fn u16_of(high: u8, low: u8) -> u16
    ensures { result ≡ be16 (high ∷ low ∷ []) 0 }
{
    u16::from_be_bytes([high, low])
}

// The two bytes at a place as a number; a byte beyond the run is 0.
pub fn u16_at(s: &[u8], at: usize) -> u16
    ensures { result ≡ be16 s.now at }
{
    if s.len() <= at {
        return 0;
    }
    u16_of(s[at], byte_at(s, at + 1))
}

// Whether two bytes are a continuation marker.
pub fn is_marker(n: u16) -> bool
    ensures { result ≡ marker n }
{
    matches!(n, 0x7FFE | 0x7FFF)
}

// Lays a number's two bytes down at the room's start, where it has two.
pub fn put_u16(room: &mut [u8], n: u16)
    ensures { room.new ≡ laid room.old 0 (two n) }
{
    if room.len() < 2 {
        return;
    }
    let [high, low] = n.to_be_bytes();
    room[0] = high;
    room[1] = low;
}

// Lays bytes down at the room's start, where it has room for them. A loop, which is compiled to moves of sixteen bytes, and not
// `copy_from_slice`, which calls the C library's `memmove`: the archive is to need no other library.
pub fn copy(bytes: &[u8], room: &mut [u8])
    ensures { room.new ≡ laid room.old 0 bytes.now }
{
    if bytes.len() <= room.len() {
        for i in 0..bytes.len() {
            room[i] = bytes[i];
        }
    }
}

// From so many bytes on, laying them down in two steps is worth it.
const LONG: usize = 256;

// Lays bytes into a room from a place on.
pub(crate) fn copy_at(bytes: &[u8], room: &mut [u8], at: usize)
    requires { at + length bytes.now ≤ length room.old }
    ensures { room.new ≡ splice room.old at bytes.now }
{
    copy(bytes, &mut room[at..]);
}

// Lays bytes into a room from a place on, where it has room for them. Those up to a place that 16 divides go first: in a room
// that starts at such an address, the stores of all the others then cross no line of the cache.
pub fn lay_at(bytes: &[u8], room: &mut [u8], at: usize)
    ensures { room.new ≡ laid room.old at bytes.now }
{
    if room.len() < at {
        return;
    }
    if room.len() - at < bytes.len() {
        return;
    }
    if bytes.len() < LONG {
        copy_at(bytes, room, at);
        return;
    }
    let ahead = 15 - (at + 15) % 16;
    copy_at(&bytes[..ahead], room, at);
    copy_at(&bytes[ahead..], room, at + ahead);
}
