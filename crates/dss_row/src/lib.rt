// The records of a run's frames, laid into a lent row: document 01, "Reading", "Frames land in a lent row of frame records".
#![tactic(auto)]

ghost use Rattle.std.specs.Prelude.{ℕ, List, Option, ◌≡◌, ◌≤◌, length};
ghost use Rattle.wire.specs.Bytes.{splice};
ghost use Rattle.dss_row.specs.inner.RowRecords.{laid_from, place_held, PlaceKept};
ghost use Rattle.dss_row.specs.inner.FrameRows.{record_at, records_from};
ghost use Rattle.dss_frame.specs.inner.RowStart.{starts_at};
ghost use Rattle.dss_frame.specs.declared.RowPlace.{RowPlace};

use dss_frame::{DssFrame, RowPlace, Rules};

// What a lent row is filled with: at a place of a run stands a record, with the place behind it, or none.
pub trait Records {
    type Record: Copy;

    ghost found: { List ℕ → RowPlace → Option (Self.Record × RowPlace) };

    // A payload is no longer than the bytes of the run that its record takes: from a place no further into the room than into the run,
    // the place behind is such a place, too. From any other, payloads may end beyond what a usize can say, and are said to end there.
    fn record_at(run: &[u8], place: RowPlace) -> Option<(Self::Record, RowPlace)>
        ensures is { result ≡ place_held (found run.now place) }
        ensures kept { place.payload_at ≤ place.at → (result ≡ found run.now place) × PlaceKept result };
}

// The records of frames.
pub struct Frames;

impl Records for Frames {
    type Record = DssFrame;

    ghost found = { record_at };

    // The record at a place, found by measuring.
    fn record_at(run: &[u8], place: RowPlace) -> Option<(DssFrame, RowPlace)> {
        if place.left == 0 {
            return None;
        }
        let measure = dss_measure::measure(Rules::Reader, run, place.at).ok()?;
        let record = measure.record(place.at, place.payload_at);
        let next = RowPlace {
            at: measure.end,
            payload_at: place.payload_at.saturating_add(measure.payload_len),
            left: place.left - 1,
        };
        Some((record, next))
    }
}

// At most `count` records from a place on, as many as the row has, with their payloads end to end.
pub fn fill<R: Records>(run: &[u8], from: usize, count: usize, row: &mut [R::Record])
    ensures { row.new ≡ splice row.old 0 (laid_from (R.found run.now) (length row.old) (starts_at «from» count)) }
{
    let mut place = RowPlace {
        at: from,
        payload_at: 0,
        left: count,
    };
    for slot in row.iter_mut() {
        let Some((record, next)) = R::record_at(run, place) else {
            break;
        };
        *slot = record;
        place = next;
    }
}

// The records of at most `count` frames from a place on, as many as the row has, with their payloads end to end.
pub fn fill_rows(run: &[u8], from: usize, count: usize, row: &mut [DssFrame])
    ensures { row.new ≡ splice row.old 0 (records_from (length row.old) run.now (starts_at «from» count)) }
{
    fill::<Frames>(run, from, count, row)
}
