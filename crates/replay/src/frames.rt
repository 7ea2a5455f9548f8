// All frames, and the salvage reading, in rows of sixteen records.
use super::words::{lay, put_answer};
use dss_reader::DssReader;
use dss_salvage::{Entry, SalvageEntry};
use gateway_row::{RECORD_WORDS, put_record, put_refused};
use gateway_words::{put_done, put_words};
use lent_rows::Listed;
use lent_rows::entries::{BLANK_ENTRY, entries_row};
use lent_rows::frames::{BLANK_FRAME, frames_row};

pub(crate) fn all(
    at: usize,
    run: &[u8],
    room: &mut [u8],
    row: &mut [u64],
    words: &mut [u64],
) -> u64 {
    let reader = DssReader { position: at };
    let Listed {
        answer: (read, reader),
        row: records,
    } = frames_row(reader, run, room, BLANK_FRAME);
    lay(&records, RECORD_WORDS, row, put_record);
    put_answer(words, read, |words, read| {
        let position = reader.position as u64;
        put_words(
            words,
            [
                0,
                position,
                read.count as u64,
                read.bytes as u64,
                0,
                0,
                0,
                0,
            ],
        );
        0
    })
}

fn put_entry(words: &mut [u64], record: SalvageEntry) {
    match record.entry {
        Entry::Frame(frame) => put_record(words, frame),
        Entry::Refused { refused, at, end } => put_refused(words, refused, at, end),
    }
}

pub(crate) fn salvaged(run: &[u8], room: &mut [u8], row: &mut [u64], words: &mut [u64]) -> u64 {
    let listed = entries_row(run, room, BLANK_ENTRY);
    lay(&listed.row, RECORD_WORDS, row, put_entry);
    put_answer(words, listed.answer, |words, all| {
        put_done(
            words,
            all.count as u64,
            all.bytes as u64,
            all.tail as u64,
            0,
        )
    })
}
