// The port for C and Rust: numbers and slices alone. A slice goes as its pointer and then its length; no two that overlap are
// lent to one call. A function that can refuse returns document 01's number, 0 for done, and lays eight words down at the start
// of `words`, where it has eight: the number, the place, then a refusal's values or the result. The functions of the
// writer and the reader are in gateway_writer and gateway_reader. gateway_head_c and so on export each crate's under the names of C.
#![tactic(auto)]

pub mod head; // head.rt: module 1, lengths, types, flags, heads
