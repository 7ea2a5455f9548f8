// The salvage reading for C and Rust: document 01, "Salvage reading". Slices, numbers and words go as in the crate gateway_head. The
// row of entries is lent as words, ten a record. A `usize` goes into a word by `as`: Rust has no `From` for it.
#![tactic(auto)]

ghost use Rattle.std.specs.Prelude.{◌≡◌, ◌*◌, ◌≤◌, length};
ghost use Rattle.wire.specs.Bytes.{splice, joined};
ghost use Rattle.dss_frame.specs.inner.RowStart.{starts_at};
ghost use Rattle.dss_salvage_row.specs.inner.EntryRows.{entry_records_from};
ghost use Rattle.gateway_words.specs.AnswerWords.{Answered};
ghost use Rattle.gateway_row.specs.RowWords.{record_len};
ghost use Rattle.gateway_salvage.specs.SalvageWords.{entry_words, salvaged_words, SalvagesInWords};

use answer::Refused;
use dss_salvage::{Salvaging, Step};
use gateway_row::{RECORD_WORDS, put_record, put_refused};
use gateway_words::{put_done, put_refusal};

// The records of so many entries of a run, ten words each, with their payloads end to end.
pub(crate) fn lay_entries(run: &[u8], count: usize, row: &mut [u64])
    requires { record_len * count ≤ length row.old }
    ensures { row.new ≡ splice row.old 0 (joined entry_words (entry_records_from count run.now (starts_at 0 count))) }
{
    let mut at = 0;
    let mut payload_at = 0;
    // By place: a proof doesn't see what is written through chunks_exact_mut.
    for i in 0..count {
        let filled = RECORD_WORDS * i;
        let next = filled + RECORD_WORDS;
        match dss_salvage::step_at(run, at) {
            Step::Frame(measure) => {
                let record = measure.record(at, payload_at);
                put_record(&mut row[filled..next], record);
                at = measure.end;
                payload_at += measure.payload_len;
            }
            Step::Over(refused, end) => {
                put_refused(&mut row[filled..next], refused, at, end);
                at = end;
            }
            Step::Last(refused) => {
                put_refused(&mut row[filled..next], refused, at, at);
                return;
            }
            Step::End => {
                return;
            }
        }
    }
}

// How many entries were listed, how many bytes their payloads have and the tail's place; or that there is no room.
pub(crate) fn put_salvaged(words: &mut [u64], salvaged: Result<Salvaging, Refused>) -> u8
    ensures { Answered (salvaged_words salvaged) words.old result words.new }
{
    match salvaged {
        Ok(Salvaging { count, bytes, tail }) => {
            put_done(words, count as u64, bytes as u64, tail as u64, 0)
        }
        Err(refused) => put_refusal(words, refused),
    }
}

// All that can be read of a run: the payloads of its frames end to end in the room, one record for each entry in the row.
pub fn lattrugone_salvage(run: &[u8], room: &mut [u8], row: &mut [u64], words: &mut [u64]) -> u8
    ensures { SalvagesInWords run.now room.old row.old words.old result room.new row.new words.new }
{
    let salvaged = dss_salvage_call::gather_entries(run, room, row.len() / RECORD_WORDS);
    let count = dss_salvage_call::entries_in(salvaged);
    lay_entries(run, count, row);
    put_salvaged(words, salvaged)
}
