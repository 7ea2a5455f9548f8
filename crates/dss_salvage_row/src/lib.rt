// The entries of a salvage reading, laid into a lent row: document 01, "Salvage reading", "Entries are listed in order, one record each".
#![tactic(auto)]

ghost use Rattle.std.specs.Prelude.{◌≡◌, length};
ghost use Rattle.wire.specs.Bytes.{splice};
ghost use Rattle.dss_frame.specs.inner.RowStart.{starts_at};
ghost use Rattle.dss_salvage_row.specs.inner.EntryRows.{entry_record_at, entry_records_from};

use dss_frame::RowPlace;
use dss_row::Records;
use dss_salvage::{Entry, SalvageEntry, Step};

// The records of a salvage reading's entries.
pub struct Entries;

impl Records for Entries {
    type Record = SalvageEntry;

    ghost found = { entry_record_at };

    // The record at a place, found by a step of the walk.
    fn record_at(run: &[u8], place: RowPlace) -> Option<(SalvageEntry, RowPlace)> {
        let RowPlace {
            at,
            payload_at,
            left,
        } = place;
        if left == 0 {
            return None;
        }
        match dss_salvage::step_at(run, at) {
            Step::End => None,
            Step::Last(refused) => {
                let entry = Entry::Refused {
                    refused,
                    at,
                    end: at,
                };
                Some((SalvageEntry { entry }, RowPlace { left: 0, ..place }))
            }
            Step::Over(refused, end) => {
                let entry = Entry::Refused { refused, at, end };
                let next = RowPlace {
                    at: end,
                    left: left - 1,
                    ..place
                };
                Some((SalvageEntry { entry }, next))
            }
            Step::Frame(measure) => {
                let entry = Entry::Frame(measure.record(at, payload_at));
                let next = RowPlace {
                    at: measure.end,
                    payload_at: payload_at.saturating_add(measure.payload_len),
                    left: left - 1,
                };
                Some((SalvageEntry { entry }, next))
            }
        }
    }
}

// The records of at most `count` entries from a place on, as many as the row has, with their payloads end to end.
pub fn fill_entries(run: &[u8], from: usize, count: usize, row: &mut [SalvageEntry])
    ensures { row.new ≡ splice row.old 0 (entry_records_from (length row.old) run.now (starts_at «from» count)) }
{
    dss_row::fill::<Entries>(run, from, count, row)
}
