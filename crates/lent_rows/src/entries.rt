// A row of salvage entries.
ghost use Rattle.std.specs.Prelude.{replicate};
ghost use Rattle.dss_salvage_call.specs.SalvageCall.{SalvagesRun};

use super::frames::BLANK_FRAME;
use super::{Listed, lent};
use answer::Refused;
use dss_salvage::{Entry, SalvageEntry, Salvaging};

pub type EntriesRow = Listed<Result<Salvaging, Refused>, [SalvageEntry; 16]>;

pub const BLANK_ENTRY: SalvageEntry = SalvageEntry {
    entry: Entry::Frame(BLANK_FRAME),
};

// All entries of a run, in a row of sixteen that are blank.
pub fn entries_row(run: &[u8], room: &mut [u8], blank: SalvageEntry) -> EntriesRow
    ensures { SalvagesRun run.now room.old (replicate 16 blank) result.answer room.new result.row }
{
    lent(
        room,
        blank,
        |room, row| dss_salvage_call::salvage(run, room, row),
    )
}
