// One answer: the call made again, and what it comes to held to what is recorded.
ghost use Rattle.std.specs.Prelude.{◌≤◌, length};

use super::calls::made;
use replay_list::asked::asked_at;
use replay_list::input::fill_input;
use replay_list::number::{at_most, number_at};
use replay_list::sum;

// What fills lent buffers before a call.
const BYTE: u8 = 0xA5;

const WORD: u64 = 90;

// Inputs, rooms and rows are shorter than these.
const BYTES: usize = 147456;

const ROW: usize = 512;

// So many words are looked at.
const WORDS: usize = 12;

// What each call has for its input, and is lent to write.
#[derive(Drop)]
pub(crate) struct Buffers {
    pub(crate) run: [u8; BYTES],
    pub(crate) room: [u8; BYTES],
    pub(crate) row: [u64; ROW],
    pub(crate) words: [u64; WORDS],
}

impl Buffers {
    pub(crate) fn new() -> Buffers {
        Buffers {
            run: [0; BYTES],
            room: [0; BYTES],
            row: [0; ROW],
            words: [0; WORDS],
        }
    }
}

// Whether an answer is the recorded one, and the place in the list behind it, which is told either way.
#[derive(Drop)]
pub(crate) struct Held {
    pub(crate) same: bool,
    pub(crate) next: usize,
}

// Whether the words are those recorded from a place on.
fn same_words(list: &[u8], at: usize, words: &[u64]) -> Held
    ensures { result.next ≤ length list.now }
{
    let mut same = true;
    let mut next = at.min(list.len());
    for &word in words {
        let recorded = number_at(list, next);
        same = same && recorded.value == word;
        next = recorded.next;
    }
    Held { same, next }
}

// Whether what a call came to is what is recorded from a place on: what it returned, the words, the sums of room and row.
fn same_answer(
    list: &[u8],
    at: usize,
    returned: u64,
    words: &[u64],
    room: &[u8],
    row: &[u64],
) -> Held
    ensures { result.next ≤ length list.now }
{
    let first = number_at(list, at);
    let rest = same_words(list, first.next, words);
    let room_sum = number_at(list, rest.next);
    let row_sum = number_at(list, room_sum.next);
    let same = rest.same
        && first.value == returned
        && room_sum.value == sum::of(room)
        && row_sum.value == sum::of(row);
    Held {
        same,
        next: row_sum.next,
    }
}

// A call with its input, in a room, a row and words of just the lengths that it asks, at the front of longer buffers.
pub(crate) fn replayed(list: &[u8], at: usize, buffers: &mut Buffers) -> Held
    ensures { result.next ≤ length list.now }
{
    let run = &mut buffers.run[..];
    let room = &mut buffers.room[..];
    let row = &mut buffers.row[..];
    let words = &mut buffers.words[..];
    let asked = asked_at(list, at);
    let input = fill_input(list, asked.next, run);
    let room_len = at_most(asked.room, room.len());
    let row_len = at_most(asked.row, row.len());
    let words_len = at_most(asked.words, words.len());
    room[..room_len].fill(BYTE);
    row[..row_len].fill(WORD);
    words.fill(WORD);
    let returned = made(
        &asked,
        &run[..input.len],
        &mut room[..room_len],
        &mut row[..row_len],
        &mut words[..words_len],
    );
    same_answer(
        list,
        input.next,
        returned,
        words,
        &room[..room_len],
        &row[..row_len],
    )
}
