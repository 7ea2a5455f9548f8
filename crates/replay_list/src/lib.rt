// The list of recorded answers, read: its numbers, what is asked, the bytes of an input, and the sums that stand for what lent buffers hold.
// Beyond the list's end every number is 0, and a place read on from there is the list's end. The list and a place in it stay two
// parameters, and no struct that reads on: `number_at`, `asked_at` and `fill_input` are public, and tell the place behind.
#![tactic(auto)]

pub mod number; // number.rt: numbers, and parts of them
pub mod asked; // asked.rt: a call's number, and what it is given
pub mod input; // input.rt: an input's bytes, of pieces
pub mod sum; // sum.rt: sums of bytes and of words
