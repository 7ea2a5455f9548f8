// A number takes one byte where it is below 248. Else the first byte is 247 and how many bytes follow, and these are the number,
// most significant first.
ghost use Rattle.std.specs.Prelude.{◌≤◌, length};

// A number of the list, and the place behind it.
#[derive(Drop)]
pub struct Number {
    pub value: u64,
    pub next: usize,
}

pub fn number_at(list: &[u8], at: usize) -> Number
    ensures { result.next ≤ length list.now }
{
    let beyond = Number {
        value: 0,
        next: list.len(),
    };
    if list.len() <= at {
        return beyond;
    }
    let first = list[at];
    let behind = count(first);
    if behind == 0 {
        return Number {
            value: u64::from(first),
            next: at + 1,
        };
    }
    let rest = &list[at + 1..];
    if rest.len() < behind {
        return beyond;
    }
    Number {
        value: of_bytes(&rest[..behind]),
        next: at + 1 + behind,
    }
}

// How many bytes follow the first.
fn count(first: u8) -> usize
    ensures { result ≤ 8 }
{
    usize::from(first.saturating_sub(247))
}

// The number in these bytes.
fn of_bytes(bytes: &[u8]) -> u64 {
    bytes
        .iter()
        .fold(0, |value, &b| (value << 8) | u64::from(b))
}

// A number, or what there is where that is less. By `as`: Rust has no `From` between the two types.
pub fn at_most(x: u64, most: usize) -> usize
    ensures upper_bound { result ≤ most }
    ensures upper_bound_2 { result ≤ x }
{
    x.min(most as u64) as usize
}
