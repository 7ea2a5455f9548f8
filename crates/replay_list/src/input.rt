// An input is pieces one behind the other: how many, then each of them. A piece starts with a number, four times its length and
// its kind: 0, the bytes follow; 1, a number follows, whose last byte is all its bytes; 2, a number follows, from which
// a row of bytes is counted out that comes back to its start after 65,536.
ghost use Rattle.std.specs.Prelude.{◌≤◌, length};

use super::number::{at_most, number_at};

// How many bytes were laid down, and the place in the list behind what they were made of.
#[derive(Drop)]
pub struct Filled {
    pub len: usize,
    pub next: usize,
}

pub fn fill_input(list: &[u8], at: usize, run: &mut [u8]) -> Filled
    ensures len_in_bounds { result.len ≤ length run.new }
    ensures next_in_bounds { result.next ≤ length list.now }
{
    let pieces = number_at(list, at);
    let mut next = pieces.next;
    let mut len = 0;
    for _ in 0..at_most(pieces.value, list.len()) {
        let piece = fill_piece(list, next, &mut run[len..]);
        len += piece.len;
        next = piece.next;
    }
    Filled { len, next }
}

fn fill_piece(list: &[u8], at: usize, room: &mut [u8]) -> Filled
    ensures len_in_bounds { result.len ≤ length room.new }
    ensures next_in_bounds { result.next ≤ length list.now }
{
    let head = number_at(list, at);
    let len = at_most(head.value / 4, room.len());
    if head.value % 4 == 0 {
        return fill_literal(list, head.next, len, room);
    }
    let made_of = number_at(list, head.next);
    if head.value % 4 == 1 {
        let [last, ..] = made_of.value.to_le_bytes();
        room[..len].fill(last);
    } else {
        fill_counted(&mut room[..len], made_of.value);
    }
    Filled {
        len,
        next: made_of.next,
    }
}

fn fill_literal(list: &[u8], at: usize, len: usize, room: &mut [u8]) -> Filled
    requires at_in_bounds { at ≤ length list.now }
    requires len_in_bounds { len ≤ length room.old }
    ensures len_in_bounds_2 { result.len ≤ length room.new }
    ensures next_in_bounds { result.next ≤ length list.now }
{
    let rest = &list[at..];
    let n = len.min(rest.len());
    room[..n].copy_from_slice(&rest[..n]);
    Filled {
        len: n,
        next: at + n,
    }
}

fn fill_counted(room: &mut [u8], start: u64) {
    let mut x = (start % 65536) as u16;
    for slot in room.iter_mut() {
        let [high, _] = x.to_be_bytes();
        *slot = high;
        x = x.wrapping_mul(25173).wrapping_add(13849);
    }
}
