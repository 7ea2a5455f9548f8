// All frames at once for C and Rust: document 01, "Reading", `read_all_frames`. Slices, numbers and words go as in the crate
// gateway, a reader as its position. The row of records is lent as words, ten a record. A `usize` goes into a word by `as`: Rust has
// no `From` for it.
#![tactic(auto)]

ghost use Rattle.gateway_words.specs.AnswerWords.{Answered};
ghost use Rattle.gateway_frames.specs.FramesWords.{frames_words, ReadsAllFrames};
ghost use Rattle.gateway_frames.specs.inner.LaidRecords.{Asks, TakenRecord};

use answer::Refused;
use dss_frame::Rules;
use dss_reader::{DssReader, FramesRead};
use gateway_row::{RECORD_WORDS, put_record};
use gateway_words::{put_refusal, put_words};

// So many frames from a place on, which are all that there are: their payloads end to end in the room, their records in the
// row, ten words each. Each frame is looked at once for both.
pub(crate) fn take_frames(run: &[u8], from: usize, count: usize, room: &mut [u8], row: &mut [u64])
    requires { Asks run.now «from» count room.old row.old }
    ensures { TakenRecord run.now «from» count room.old row.old room.new row.new }
{
    let mut at = from;
    let mut payload_at = 0;
    for i in 0..count {
        let Ok(measure) = dss_take::take(Rules::Reader, run, at, &mut room[payload_at..]) else {
            return;
        };
        let record = measure.record(at, payload_at);
        // A part by its place, and no `chunks_exact_mut`: after that a proof knows no more of the row than its length.
        let filled = i * RECORD_WORDS;
        put_record(&mut row[filled..filled + RECORD_WORDS], record);
        at = measure.end;
        payload_at += measure.payload_len;
    }
}

// How many frames were read and how many bytes their payloads have, with the position behind them; or why none were.
pub(crate) fn put_frames(words: &mut [u64], read: (Result<FramesRead, Refused>, DssReader)) -> u8
    ensures { Answered (frames_words read) words.old result words.new }
{
    let (found, reader) = read;
    match found {
        Ok(FramesRead { count, bytes }) => {
            let position = reader.position as u64;
            put_words(words, [0, position, count as u64, bytes as u64, 0, 0, 0, 0]);
            0
        }
        Err(refused) => put_refusal(words, refused),
    }
}

// All frames from a position on: their payloads end to end in the room, their records in the row.
pub fn lattrugone_read_all_frames(
    run: &[u8],
    at: usize,
    room: &mut [u8],
    row: &mut [u64],
    words: &mut [u64],
) -> u8
    ensures { ReadsAllFrames run.now at room.old row.old words.old result room.new row.new words.new }
{
    let read = dss_reader::measure_frames(run, at, room.len(), row.len() / RECORD_WORDS);
    if let Ok(found) = read.0 {
        take_frames(run, at, found.count, room, row);
    }
    put_frames(words, read)
}
