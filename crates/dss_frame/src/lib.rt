// What a frame is: definitions (specs/), and the records that the reader and the salvage reading share.
#![tactic(auto)]

use dss_head::DssHeader;

// Whose rules hold while a frame is read: the reader's, which are the Rust's, or salvage's.
#[derive(Clone, Copy, PartialEq, Eq)]
pub enum Rules {
    Reader,
    Salvage,
}

// A frame's record: its head, where its payload lies in the lent room, of how many segments it was made, and where it stood in
// the run: its first byte and the byte after its last, absorbed segments included.
#[derive(Clone, Copy, PartialEq, Eq)]
pub struct DssFrame {
    pub header: DssHeader,
    pub payload_at: usize,
    pub payload_len: usize,
    pub segments: usize,
    pub at: usize,
    pub end: usize,
}

// Where a record's frame or entry starts in the run, where its payload lies in the room, and how many records are still to come.
#[derive(Clone, Copy, PartialEq, Eq)]
pub struct RowPlace {
    pub at: usize,
    pub payload_at: usize,
    pub left: usize,
}
