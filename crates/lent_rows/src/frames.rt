// A row of frames.
ghost use Rattle.std.specs.Prelude.{replicate};
ghost use Rattle.dss_reader.specs.Reader.{ReadAllFrames};

use super::{Listed, lent};
use answer::Refused;
use dss_frame::DssFrame;
use dss_head::{DssFlags, DssHeader, DssType};
use dss_reader::{DssReader, FramesRead};

pub type FramesRow = Listed<(Result<FramesRead, Refused>, DssReader), [DssFrame; 16]>;

pub const BLANK_FRAME: DssFrame = DssFrame {
    header: DssHeader {
        length: 5,
        dss_type: DssType::Communication,
        flags: DssFlags {
            chained: true,
            continue_on_error: true,
            same_correlation: true,
        },
        correlation_id: 9,
    },
    payload_at: 99,
    payload_len: 99,
    segments: 0,
    at: 99,
    end: 98,
};

// All frames of a run from the reader's position on, in a row of sixteen that are blank.
pub fn frames_row(reader: DssReader, run: &[u8], room: &mut [u8], blank: DssFrame) -> FramesRow
    ensures { ReadAllFrames run.now reader.position room.old (replicate 16 blank) result.answer room.new result.row }
{
    lent(
        room,
        blank,
        |room, row| reader.read_all_frames(run, room, row),
    )
}
