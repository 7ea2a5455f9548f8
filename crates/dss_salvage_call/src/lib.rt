// The salvage reading's call: document 01, "Salvage reading".
#![tactic(auto)]

ghost use Rattle.std.specs.Prelude.{◌≡◌, ◌≤◌, length};
ghost use Rattle.wire.specs.Bytes.{splice};
ghost use Rattle.dss_salvage_call.specs.SalvageCall.{SalvagesRun, GathersEntries, entries_in};
ghost use Rattle.dss_salvage_call.specs.inner.SalvageGathered.{bytes_in};

use answer::Refused;
use dss_frame::Rules;
use dss_salvage::{SalvageEntry, Salvaging, Step};

// The payloads of all frames of a run, laid into the room end to end.
pub(crate) fn lay_payloads(run: &[u8], room: &mut [u8])
    requires { length (bytes_in run.now) ≤ length room.old }
    ensures { room.new ≡ splice room.old 0 (bytes_in run.now) }
{
    let mut at = 0;
    let mut filled = 0;
    // No counted loop: where the next entry starts is read from this one.
    loop {
        match dss_take::take(Rules::Salvage, run, at, &mut room[filled..]) {
            Ok(measure) => {
                filled += measure.payload_len;
                at = measure.end;
            }
            Err(refused) => match dss_salvage::step_over(run, at, refused) {
                Step::Over(_, next) => {
                    at = next;
                }
                _ => {
                    return;
                }
            },
        }
    }
}

// What a salvage reading comes to with so many rows, its payloads in the room: measured first, and laid down if all fits. The one
// refusal is 9.
pub fn gather_entries(run: &[u8], room: &mut [u8], rows: usize) -> Result<Salvaging, Refused>
    ensures { GathersEntries run.now room.old rows result room.new }
{
    let all = dss_salvage::measure_salvage(run);
    if room.len() < all.bytes || rows < all.count {
        return Err(Refused::no_room(all.bytes, all.count, 0));
    }
    lay_payloads(run, room);
    Ok(all)
}

// How many entries an answer has.
pub fn entries_in(salvaged: Result<Salvaging, Refused>) -> usize
    ensures { result ≡ entries_in salvaged }
{
    salvaged.map_or(0, |all| all.count)
}

// All that can be read of a run: the payloads of its frames end to end in the room, one record for each entry in the row.
pub fn salvage(run: &[u8], room: &mut [u8], row: &mut [SalvageEntry]) -> Result<Salvaging, Refused>
    ensures { SalvagesRun run.now room.old row.old result room.new row.new }
{
    let salvaged = gather_entries(run, room, row.len());
    dss_salvage_row::fill_entries(run, 0, entries_in(salvaged), row);
    salvaged
}
