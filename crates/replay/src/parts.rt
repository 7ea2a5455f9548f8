// An object's data, and a walk over parameters.
ghost use Rattle.std.specs.Prelude.{◌≡◌, ◌+◌, min};

use super::calls::NO_CALL;
use super::walker::{rest_from, step_from};
use super::words::put_answer;
use ddm_object::DdmObject;
use gateway_object::put_object;
use gateway_words::{put_done, put_refusal};
use replay_list::sum;

// The last of eight words.
fn put_last(words: &mut [u64], last: u64) {
    if let Some(word) = words.get_mut(7) {
        *word = last;
    }
}

// The data of an object in a work area that the call which parses it has filled: what that call says, with the data's length.
// Their sum is returned.
pub(crate) fn data_parsed(run: &[u8], at: usize, work: &mut [u8], words: &mut [u64]) -> u64 {
    let found = ddm_object::object_at(run, at, work);
    put_answer(words, found, |words, o| put_object(words, 0, o));
    let data = ddm_object::object_data(run, at, work);
    put_last(words, data.len() as u64);
    sum::of(data)
}

// The same in a work area as it is lent.
pub(crate) fn data_lent(run: &[u8], at: usize, work: &[u8], words: &mut [u64]) -> u64 {
    let data = ddm_object::object_data(run, at, work);
    put_done(words, data.len() as u64, 0, 0, 0);
    sum::of(data)
}

// A parameter in the first eight words, with the next place; the last of them is the sum of what is left at its own place.
fn put_param(row: &mut [u64], data: &[u8], at: usize, next: usize, o: DdmObject) {
    put_object(row, next, o);
    put_last(row, sum::of(rest_from(data, at)));
}

// Eight words further on, or the end where there are no eight.
fn behind(filled: usize, len: usize) -> usize
    ensures { result ≡ min (filled + 8) len }
{
    filled.saturating_add(8).min(len)
}

// All parameters from a place on, a record each, as far as the row goes; then the refusal that ends the walk, with how many there
// were. The sum of what is left is returned.
pub(crate) fn walk(data: &[u8], from: usize, row: &mut [u64], words: &mut [u64]) -> u64 {
    let mut at = from;
    let mut filled = 0;
    for count in 0..=data.len() {
        match step_from(data, at) {
            Ok((o, next)) => {
                put_param(&mut row[filled..], data, at, next, o);
                filled = behind(filled, row.len());
                at = next;
            }
            Err(refused) => {
                put_refusal(words, refused);
                put_last(words, count as u64);
                return sum::of(rest_from(data, at));
            }
        }
    }
    // a parameter takes bytes, so there are no more of them than bytes
    NO_CALL
}
