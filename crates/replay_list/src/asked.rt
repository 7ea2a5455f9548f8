// What the list asks: a call's number, four numbers, of which a call here is given the first, and how long the lent room, row and
// words are.
ghost use Rattle.std.specs.Prelude.{◌≤◌, length};

use super::number::number_at;

#[derive(Drop)]
pub struct Asked {
    pub call: u64,
    pub a: u64,
    pub room: u64,
    pub row: u64,
    pub words: u64,
    pub next: usize,
}

pub fn asked_at(list: &[u8], at: usize) -> Asked
    ensures { result.next ≤ length list.now }
{
    let call = number_at(list, at);
    let a = number_at(list, call.next);
    let b = number_at(list, a.next);
    let c = number_at(list, b.next);
    let d = number_at(list, c.next);
    let room = number_at(list, d.next);
    let row = number_at(list, room.next);
    let words = number_at(list, row.next);
    Asked {
        call: call.value,
        a: a.value,
        room: room.value,
        row: row.value,
        words: words.value,
        next: words.next,
    }
}
