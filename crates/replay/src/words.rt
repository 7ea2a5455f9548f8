// What a call comes to, in words. Here and in what calls these a `usize` goes into a word by `as`: Rust has no `From` for it.
ghost use Rattle.std.specs.Prelude.{◌<◌};

use answer::Refused;
use gateway_words::put_refusal;

// The records of a row, so many words each, as far as the words go.
pub(crate) fn lay<T: Copy, F: FnMut(&mut [u64], T)>(
    records: &[T],
    width: usize,
    row: &mut [u64],
    mut put: F,
)
    requires width_positive { 0 < width }
    requires callable { F.IsAlwaysCallable put }
{
    for (words, record) in row.chunks_mut(width).zip(records) {
        put(words, *record);
    }
}

// What a call is done with, or its refusal; the number that it would return.
pub(crate) fn put_answer<T, F: FnOnce(&mut [u64], T) -> u8>(
    words: &mut [u64],
    answer: Result<T, Refused>,
    put: F,
) -> u64
    requires { F.IsAlwaysCallable put }
{
    let number = match answer {
        Ok(done) => put(words, done),
        Err(refused) => put_refusal(words, refused),
    };
    u64::from(number)
}
