// Rows of records, lent from local arrays and taken back: `read_all_frames`, `salvage` and `parameters` on a run each. Prints the
// first four records of each row, of which the last is as it was, and what its room then holds.
#![tactic(auto)]

mod say; // say.rt: records as text

use dss_reader::DssReader;
use lent_rows::entries::{BLANK_ENTRY, entries_row};
use lent_rows::frames::{BLANK_FRAME, frames_row};
use lent_rows::objects::{BLANK_OBJECT, parameters_row};

// A reply of no bytes; an object of two segments, AB and C; a request, DE.
fn show_frames(rt: &impl Print) {
    let run =
        b"\x00\x06\xD0\x02\x00\x07\x00\x08\xD0\x03\x00\x01AB\x00\x07\xD0\x53\x00\x01C\x00\x08\xD0\x01\x00\x02DE";
    let mut room = [b'.'; 8];
    let listed = frames_row(DssReader::new(), run, &mut room, BLANK_FRAME);
    for frame in &listed.row[..4] {
        say::frame(rt, *frame);
    }
    say::bytes(rt, &room);
}

// A reply, AB; one whose type is 6; a request, C, and behind it two bytes.
fn show_entries(rt: &impl Print) {
    let run =
        b"\x00\x08\xD0\x02\x00\x07AB\x00\x07\xD0\x06\x00\x07x\x00\x07\xD0\x01\x00\x02C\x00\x06";
    let mut room = [b'.'; 8];
    let listed = entries_row(run, &mut room, BLANK_ENTRY);
    for entry in &listed.row[..4] {
        say::entry(rt, *entry);
    }
    say::bytes(rt, &room);
}

// AB inline; C extended; DE of raw length 8004, which takes all that is left.
fn show_parameters(rt: &impl Print) {
    let data = b"\x00\x06\x24\x01AB\x80\x05\x24\x02\x01C\x80\x04\x24\x03DE";
    let mut work = [b'.'; 8];
    let listed = parameters_row(data, &mut work, BLANK_OBJECT);
    for object in &listed.row[..4] {
        say::object(rt, *object);
    }
    say::bytes(rt, &work);
}

fn main(rt: HostRuntime) {
    show_frames(&rt);
    show_entries(&rt);
    show_parameters(&rt);
}
