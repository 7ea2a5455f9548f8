// Reading frames off a run: document 01, "Reading". The run, the room and the row are lent to each call, by C and by the Rust that
// calls these, and stay parameters of their own.
#![tactic(auto)]

ghost use Rattle.std.specs.Prelude.{◌≡◌, ◌-◌, length};
ghost use Rattle.wire.specs.Bytes.{splice};
ghost use Rattle.wire.specs.Parts.{RestAt};
ghost use Rattle.dss_frame.specs.Frames.{all_frames};
ghost use Rattle.dss_reader.specs.Reader.{stands_at, left_at, frame_end, is_end, NextFrame, given_frames, ReadAllFrames, GathersFrames, records_in};
ghost use Rattle.dss_reader.specs.inner.MeasuredAll.{measured_frames, fitting_frames};
ghost use Rattle.dss_reader.specs.inner.TakingAll.{all_payloads, FitsAll};

use answer::{Refusal, Refused};
use dss_frame::{DssFrame, Rules};

// A reader's state: its place in the run. The run is lent with each call, and a longer one at the same position extends it.
#[derive(Clone, Copy)]
pub struct DssReader {
    pub position: usize,
}

// What was read of all frames: how many records stand in the row, and how many bytes in the room.
#[derive(Clone, Copy)]
pub struct FramesRead {
    pub count: usize,
    pub bytes: usize,
}

// All frames, measured: how many they are, how many bytes their payloads have, and where the reading ended.
#[derive(Clone, Copy)]
pub struct AllMeasured {
    pub count: usize,
    pub bytes: usize,
    pub end: usize,
}

// The end of the frame at a place of a run, the byte after its last: refusals 10, 1 or 16.
pub(crate) fn frame_end(run: &[u8], at: usize) -> Result<usize, Refused>
    ensures { result ≡ frame_end run.now at }
{
    if run.len() < at {
        return Err(Refused::out_of_bounds(at, run.len()));
    }
    let walked = dss_measure::walk_frame(Rules::Reader, run, at)?;
    Ok(walked.end)
}

// Where a refusal leaves a reader that stood at a place.
pub(crate) fn left_at(at: usize, refused: Refused) -> DssReader
    ensures { result ≡ left_at at refused }
{
    let position = match refused.why {
        Refusal::DeadContinuation => at,
        _ => refused.place,
    };
    DssReader { position }
}

// All frames from a place on: reads until 1 or 16. Every other refusal but 9.
pub(crate) fn measure_all(run: &[u8], from: usize) -> Result<AllMeasured, Refused>
    ensures { result ≡ measured_frames run.now «from» }
{
    let mut count = 0;
    let mut bytes = 0;
    let mut end = from;
    // No counted loop: where the next frame starts is read from this one.
    loop {
        match dss_measure::measure_extent(Rules::Reader, run, end) {
            Ok(extent) => {
                count += 1;
                bytes += extent.payload_len;
                end = extent.end;
            }
            Err(refused) => {
                if refused.why.not_whole() {
                    return Ok(AllMeasured { count, bytes, end });
                }
                return Err(refused);
            }
        }
    }
}

// The same, with 9 where the payloads don't fit a room of so many bytes or the records a row of so many.
pub(crate) fn measure_fitting(
    run: &[u8],
    at: usize,
    size: usize,
    rows: usize,
) -> Result<AllMeasured, Refused>
    ensures { result ≡ fitting_frames run.now at size rows }
{
    let all = measure_all(run, at)?;
    if size < all.bytes || rows < all.count {
        return Err(Refused::no_room(all.bytes, all.count, at));
    }
    Ok(all)
}

// The payloads of all frames from a place on, end to end at the room's start.
pub(crate) fn take_all(run: &[u8], from: usize, room: &mut [u8])
    requires { FitsAll run.now «from» room.old }
    ensures { room.new ≡ splice room.old 0 (all_payloads run.now (all_frames run.now «from»)) }
{
    let mut at = from;
    let mut mark = 0;
    // No counted loop, for the same reason.
    while let Ok(measure) = dss_take::take(Rules::Reader, run, at, &mut room[mark..]) {
        mark += measure.payload_len;
        at = measure.end;
    }
}

// What reading all frames from a place on answers, for a room of so many bytes and a row of so many records, with the state
// after: all refusals, 9 last. Touches nothing.
pub fn measure_frames(
    run: &[u8],
    at: usize,
    size: usize,
    rows: usize,
) -> (Result<FramesRead, Refused>, DssReader)
    ensures { result ≡ given_frames run.now at size rows (all_frames run.now at) }
{
    match measure_fitting(run, at, size, rows) {
        Ok(AllMeasured { count, bytes, end }) => {
            (Ok(FramesRead { count, bytes }), DssReader { position: end })
        }
        Err(refused) => (Err(refused), left_at(at, refused)),
    }
}

// The same, and the payloads in the room where all fits.
pub fn gather_frames(
    run: &[u8],
    at: usize,
    room: &mut [u8],
    rows: usize,
) -> (Result<FramesRead, Refused>, DssReader)
    ensures { GathersFrames run.now at room.old rows result room.new }
{
    let read = measure_frames(run, at, room.len(), rows);
    if read.0.is_ok() {
        take_all(run, at, room);
    }
    read
}

// How many records an answer has.
pub fn records_in(read: (Result<FramesRead, Refused>, DssReader)) -> usize
    ensures { result ≡ records_in read }
{
    read.0.map_or(0, |found| found.count)
}

impl DssReader {
    pub fn new() -> Self
        ensures { result ≡ stands_at 0 }
    {
        Self { position: 0 }
    }

    // How many bytes of the run aren't read yet.
    pub fn remaining(self, run: &[u8]) -> usize
        ensures { result ≡ length run.now - self.position }
    {
        run.len().saturating_sub(self.position)
    }

    // The bytes that aren't read yet. Of a position beyond the run it is the empty part at the run's end.
    pub fn into_remaining(self, run: &[u8]) -> &[u8]
        ensures { RestAt run.entry self.position result }
    {
        let at = self.position.min(run.len());
        &run[at..]
    }

    // The byte after the last of the frame at the position.
    pub fn complete_frame_len(self, run: &[u8]) -> Result<usize, Refused>
        ensures { result ≡ frame_end run.now self.position }
    {
        frame_end(run, self.position)
    }

    pub fn has_complete_frame(self, run: &[u8]) -> bool
        ensures { result ≡ is_end (frame_end run.now self.position) }
    {
        self.complete_frame_len(run).is_ok()
    }

    // The byte after the last of the first frame of a run.
    pub fn first_complete_frame_len(run: &[u8]) -> Result<usize, Refused>
        ensures { result ≡ frame_end run.now 0 }
    {
        frame_end(run, 0)
    }

    // The next frame, its payload at the room's start, with the state after: all refusals, 9 last.
    pub fn next_frame(self, run: &[u8], room: &mut [u8]) -> (Result<DssFrame, Refused>, DssReader)
        ensures { NextFrame run.now self.position room.old result room.new }
    {
        match dss_take::take(Rules::Reader, run, self.position, room) {
            Ok(measure) => {
                let frame = measure.record(self.position, 0);
                let position = measure.end;
                (Ok(frame), DssReader { position })
            }
            Err(refused) => (Err(refused), left_at(self.position, refused)),
        }
    }

    // All frames from the position on, until one isn't whole, yet or ever: their payloads end to end in the room, their records in
    // the row. With the state after.
    pub fn read_all_frames(
        self,
        run: &[u8],
        room: &mut [u8],
        row: &mut [DssFrame],
    ) -> (Result<FramesRead, Refused>, DssReader)
        ensures { ReadAllFrames run.now self.position room.old row.old result room.new row.new }
    {
        let at = self.position;
        let read = gather_frames(run, at, room, row.len());
        dss_row::fill_rows(run, at, records_in(read), row);
        read
    }
}
