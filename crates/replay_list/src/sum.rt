// Sums that tell what lent buffers hold apart: 64-bit FNV-1a, of a row of words with a word in the place of a byte; 0 of nothing.
ghost use Rattle.std.specs.Prelude.{◌≡◌, length};

const START: u64 = 0xCBF29CE484222325;

const PRIME: u64 = 0x100000001B3;

pub fn of<T: Into<u64> + Copy>(items: &[T]) -> u64
    ensures { length items.now ≡ 0 → result ≡ 0 }
{
    if items.is_empty() {
        return 0;
    }
    items.iter().fold(START, |sum, &item| (sum ^ item.into()).wrapping_mul(PRIME))
}
