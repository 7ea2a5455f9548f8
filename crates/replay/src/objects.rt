// All objects, and all parameters, in rows of sixteen records.
use super::words::{lay, put_answer};
use gateway_object::put_object;
use gateway_words::{ANSWER_WORDS, put_done};
use lent_rows::objects::{BLANK_OBJECT, ObjectsRow, objects_row, parameters_row};

fn put(listed: ObjectsRow, row: &mut [u64], words: &mut [u64]) -> u64 {
    lay(&listed.row, ANSWER_WORDS, row, |words, record| {
        put_object(words, 0, record);
    });
    put_answer(words, listed.answer, |words, found| {
        put_done(words, found.count as u64, found.work as u64, 0, 0)
    })
}

pub(crate) fn all(run: &[u8], work: &mut [u8], row: &mut [u64], words: &mut [u64]) -> u64 {
    put(objects_row(run, work, BLANK_OBJECT), row, words)
}

pub(crate) fn parameters(data: &[u8], work: &mut [u8], row: &mut [u64], words: &mut [u64]) -> u64 {
    put(parameters_row(data, work, BLANK_OBJECT), row, words)
}
