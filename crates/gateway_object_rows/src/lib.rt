// Lists of objects and parameters for C and Rust: document 01, module 4, what reads. A lent row of words has eight for each
// record, as gateway_object lays down one object; words behind the last whole record are no part of it.
// A `usize` goes into a word by `as`: Rust has no `From` for it.
#![tactic(auto)]

ghost use Rattle.std.specs.Prelude.{◌≡◌, ◌*◌, ◌≤◌, length};
ghost use Rattle.wire.specs.Bytes.{splice};
ghost use Rattle.ddm_rows.specs.inner.RowsFilled.{recs_from};
ghost use Rattle.ddm_rows.specs.inner.RowsFilled.{count_of};
ghost use Rattle.gateway_object_rows.specs.ListWords.{object_len, list_row, ObjectsWords, ParametersWords};
ghost use Rattle.gateway_object_rows.specs.inner.Listed.{ListedWords};

use answer::Refused;
use ddm_rows::ObjectsFound;
use gateway_object::put_object;
use gateway_words::{ANSWER_WORDS, put_done, put_refusal};

// How many words a row's record has: as many as an answer.
const OBJECT_WORDS: usize = ANSWER_WORDS;

// The first n records of data into a row that has room for them.
pub(crate) fn fill(data: &[u8], n: usize, row: &mut [u64])
    requires { n * object_len ≤ length row.old }
    ensures { row.new ≡ splice row.old 0 (list_row (recs_from n «data».now 0)) }
{
    let mut at: usize = 0;
    // By place: a proof doesn't see what is written through chunks_exact_mut.
    for i in 0..n {
        let Ok((o, next)) = ddm_object::step_at(data, at) else {
            break;
        };
        put_object(&mut row[i * OBJECT_WORDS..], 0, o);
        at = next;
    }
}

// What was found, in words, and its records in the row: how many they are, and how many bytes of the work area are filled, or
// why none.
pub(crate) fn list(
    data: &[u8],
    found: Result<ObjectsFound, Refused>,
    row: &mut [u64],
    words: &mut [u64],
) -> u8
    requires { count_of found * object_len ≤ length row.old }
    ensures { ListedWords «data».now found row.old words.old result row.new words.new }
{
    match found {
        Ok(ObjectsFound { count, work }) => {
            fill(data, count, row);
            put_done(words, count as u64, work as u64, 0, 0)
        }
        Err(refused) => put_refusal(words, refused),
    }
}

// The result: how many records stand in the row, and how many bytes of the work area are filled. They stay two functions: C has a
// name for each.

// All objects of a run.
pub fn lattrugone_objects(run: &[u8], work: &mut [u8], row: &mut [u64], words: &mut [u64]) -> u8
    ensures { ObjectsWords run.now work.old row.old words.old result work.new row.new words.new }
{
    let found = ddm_rows::take_objects(run, work, row.len() / OBJECT_WORDS);
    list(run, found, row, words)
}

// All parameters of an object's data.
pub fn lattrugone_parameters(data: &[u8], work: &mut [u8], row: &mut [u64], words: &mut [u64]) -> u8
    ensures { ParametersWords «data».now work.old row.old words.old result work.new row.new words.new }
{
    let found = ddm_rows::take_parameters(data, work, row.len() / OBJECT_WORDS);
    list(data, found, row, words)
}
