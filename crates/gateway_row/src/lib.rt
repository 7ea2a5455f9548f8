// How a frame goes to C and Rust: in eight words. A row of records is lent as words, ten a record, one behind the other. The
// crates of the port's functions for C call this. A `usize` goes into a word by `as`: Rust has no `From` for it.
#![tactic(auto)]

ghost use Rattle.std.specs.Prelude.{◌≡◌};
ghost use Rattle.wire.specs.Bytes.{laid};
ghost use Rattle.gateway_words.specs.AnswerWords.{answer_len};
ghost use Rattle.gateway_row.specs.RowWords.{frame_at, stretch, record_words, refused_words};

use answer::Refused;
use dss_frame::DssFrame;
use gateway_words::{ANSWER_WORDS, put_refusal, put_words};

// How many words a row's record has.
pub const RECORD_WORDS: usize = ANSWER_WORDS + 2;
// Where its last two stand, behind those that an answer has: where the frame started, and the byte after it.
const FIRST_WORD: usize = ANSWER_WORDS;

const END_WORD: usize = ANSWER_WORDS + 1;

// A frame's eight words, with a place in the second one and a number in the last, at the start, where there are eight.
pub fn put_frame(words: &mut [u64], place: usize, last: usize, frame: DssFrame)
    ensures { words.new ≡ laid words.old 0 (frame_at place last frame) }
{
    let head = frame.header;
    let format = head.dss_type.to_byte() + head.flags.to_byte();
    put_words(
        words,
        [
            0,
            place as u64,
            u64::from(head.length),
            u64::from(format),
            u64::from(head.correlation_id),
            frame.payload_len as u64,
            frame.segments as u64,
            last as u64,
        ],
    );
}

// Where a record's frame stood: two words behind its eight, where there are ten.
pub(crate) fn put_stretch(words: &mut [u64], first: usize, end: usize)
    ensures { words.new ≡ laid words.old answer_len (stretch first end) }
{
    if words.len() < RECORD_WORDS {
        return;
    }
    words[FIRST_WORD] = first as u64;
    words[END_WORD] = end as u64;
}

// A frame's record in a row, at the start, where there are ten words.
pub fn put_record(words: &mut [u64], frame: DssFrame)
    ensures { words.new ≡ laid words.old 0 (record_words frame) }
{
    if words.len() < RECORD_WORDS {
        return;
    }
    put_frame(words, frame.payload_at, 0, frame);
    put_stretch(words, frame.at, frame.end);
}

// The record of a refusal, and of where the refused frame stood, at the start, where there are ten words.
pub fn put_refused(words: &mut [u64], refused: Refused, first: usize, end: usize)
    ensures { words.new ≡ laid words.old 0 (refused_words refused first end) }
{
    if words.len() < RECORD_WORDS {
        return;
    }
    put_refusal(words, refused);
    put_stretch(words, first, end);
}
