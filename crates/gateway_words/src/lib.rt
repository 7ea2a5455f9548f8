// How an answer goes to C and Rust: in eight words, document 01's number, the place, then a refusal's values or the result's
// numbers. The crates of the port's functions for C call these. A `usize` goes into a word by `as`: Rust has no `From` for it.
#![tactic(auto)]

ghost use Rattle.std.specs.Prelude.{◌≡◌, [], ◌∷◌};
ghost use Rattle.wire.specs.Bytes.{laid};
ghost use Rattle.gateway_words.specs.AnswerWords.{refusal_words, done_words, laid_words, Answered};

use answer::Refused;

// How many words an answer has.
pub const ANSWER_WORDS: usize = 8;

// Lays an answer's words down at the start, where there are eight.
pub fn put_words(words: &mut [u64], answer: [u64; ANSWER_WORDS])
    ensures { words.new ≡ laid words.old 0 answer }
{
    if let Some(front) = words.first_chunk_mut::<ANSWER_WORDS>() {
        *front = answer;
    }
}

// Done, with the result's numbers.
pub fn put_done(words: &mut [u64], a: u64, b: u64, c: u64, d: u64) -> u8
    ensures { Answered (done_words a b c d) words.old result words.new }
{
    put_words(words, [0, 0, a, b, c, d, 0, 0]);
    0
}

// A refusal, with its place and its values.
pub fn put_refusal(words: &mut [u64], refused: Refused) -> u8
    ensures { Answered (refusal_words refused) words.old result words.new }
{
    let why = refused.why;
    let number = why.number();
    put_words(
        words,
        [
            u64::from(number),
            refused.place as u64,
            why.first_value() as u64,
            why.second_value() as u64,
            why.third_value() as u64,
            0,
            0,
            0,
        ],
    );
    number
}

// Bytes laid down, or why not.
pub fn put_laid(words: &mut [u64], laid: Result<usize, Refused>) -> u8
    ensures { Answered (laid_words laid) words.old result words.new }
{
    match laid {
        Ok(n) => put_done(words, n as u64, 0, 0, 0),
        Err(refused) => put_refusal(words, refused),
    }
}
