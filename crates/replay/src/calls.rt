// The calls by number. What each comes to is laid down in words, eight a record, as an exported function would lay it; a record
// that a call left blank is laid down too.
use super::{frames, objects, parts};
use replay_list::asked::Asked;

// What a number that is no call's gives.
pub(crate) const NO_CALL: u64 = 0xFFFFFFFFFFFFFFFF;

// Rows of structs, then an object's data, and the walker.
enum Call {
    AllFrames,
    Salvage,
    AllObjects,
    Parameters,
    DataParsed,
    DataLent,
    Walk,
}

impl Call {
    // The call of a number of the recorded list.
    fn numbered(number: u64) -> Option<Call> {
        match number {
            160 => Some(Call::AllFrames),
            161 => Some(Call::Salvage),
            162 => Some(Call::AllObjects),
            163 => Some(Call::Parameters),
            176 => Some(Call::DataParsed),
            177 => Some(Call::DataLent),
            178 => Some(Call::Walk),
            _ => None,
        }
    }
}

pub(crate) fn made(
    asked: &Asked,
    run: &[u8],
    room: &mut [u8],
    row: &mut [u64],
    words: &mut [u64],
) -> u64 {
    let at = asked.a as usize;
    match Call::numbered(asked.call) {
        Some(Call::AllFrames) => frames::all(at, run, room, row, words),
        Some(Call::Salvage) => frames::salvaged(run, room, row, words),
        Some(Call::AllObjects) => objects::all(run, room, row, words),
        Some(Call::Parameters) => objects::parameters(run, room, row, words),
        Some(Call::DataParsed) => parts::data_parsed(run, at, room, words),
        Some(Call::DataLent) => parts::data_lent(run, at, room, words),
        Some(Call::Walk) => parts::walk(run, at, row, words),
        None => NO_CALL,
    }
}
