// Rows of sixteen records, lent from local arrays to the calls that fill a row of structs, and taken back: what each call
// answered and what its row then holds, each under a name of its own, whose contract is its call's. And records that no run has, for rows that are blank.
#![tactic(auto)]

pub mod frames; // frames.rt: a row of frames
pub mod entries; // entries.rt: a row of salvage entries
pub mod objects; // objects.rt: a row of objects or parameters

ghost use Rattle.std.specs.Prelude.{replicate};
ghost use Rattle.lent_rows.specs.inner.LentCalls.{ReturnsAtBoth};

// What a call answered, and the row as it left it.
#[derive(Drop)]
pub struct Listed<A, R> {
    pub answer: A,
    pub row: R,
}

// A call that is lent a room, or a work area, and a row of sixteen that are blank.
pub(crate) fn lent<T: Copy, A, F: FnOnce(&mut [u8], &mut [T]) -> A>(
    room: &mut [u8],
    blank: T,
    call: F,
) -> Listed<A, [T; 16]>
    requires { F.IsAlwaysCallable call }
    ensures { ReturnsAtBoth F.FnOnce call room.old (replicate 16 blank) result.answer room.new result.row }
{
    let mut row = [blank; 16];
    let answer = call(room, &mut row);
    Listed { answer, row }
}
