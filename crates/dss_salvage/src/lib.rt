// The salvage reading, one step of its walk and its measure: document 01, "Salvage reading". Touches nothing.
#![tactic(auto)]

ghost use Rattle.std.specs.Prelude.{◌≡◌};
ghost use Rattle.dss_frame.specs.Salvage.{salvaged};
ghost use Rattle.dss_salvage.specs.inner.SalvageSteps.{over_at, step_at};
ghost use Rattle.dss_salvage.specs.inner.SalvageMeasure.{salvaging_of};

use answer::Refused;
use dss_frame::{DssFrame, Rules};
use dss_head::DSS_HEADER_LEN;
use dss_measure::FrameMeasure;

// What an entry is: a frame's record, or a refusal, without payload, and where the refused frame stood: its first byte and the
// byte after its last, equal where the walk ends at a length below six.
// No Result, since the list goes on behind a refusal, which has a stretch besides: an entry is a line of a list.
#[derive(Clone, Copy)]
pub enum Entry {
    Frame(DssFrame),
    Refused {
        refused: Refused,
        at: usize,
        end: usize,
    },
}

// One record of the lent row.
#[derive(Clone, Copy)]
pub struct SalvageEntry {
    pub entry: Entry,
}

// One step of the walk: a frame; or a refused one, and where it is stepped over to; or a refused one that the walk ends at, its
// length below 6; or the walk's end, with no entry. Four kinds, of which two go on and two end, so no Result and no Option.
#[derive(Clone, Copy)]
pub enum Step {
    Frame(FrameMeasure),
    Over(Refused, usize),
    Last(Refused),
    End,
}

// What a salvage reading comes to: how many entries, how many bytes their payloads have, and the tail's place.
#[derive(Clone, Copy)]
pub struct Salvaging {
    pub count: usize,
    pub bytes: usize,
    pub tail: usize,
}

// What a frame that is refused comes to: where it is whole, it is stepped over to the end of its own segments.
pub fn step_over(run: &[u8], at: usize, refused: Refused) -> Step
    ensures { result ≡ over_at run.now at refused }
{
    let Ok(walked) = dss_measure::walk_frame(Rules::Salvage, run, at) else {
        return Step::End;
    };
    let seg_len = usize::from(wire::u16_at(run, at));
    if seg_len < DSS_HEADER_LEN {
        return Step::Last(refused);
    }
    Step::Over(refused, walked.end)
}

// The step of the walk at a place of a run.
pub fn step_at(run: &[u8], at: usize) -> Step
    ensures { result ≡ step_at run.now at }
{
    match dss_measure::measure(Rules::Salvage, run, at) {
        // By its fields: as a whole it would be copied, and the walk would wait for that at each step.
        Ok(
            FrameMeasure {
                header,
                payload_len,
                segments,
                end,
            },
        ) => Step::Frame(FrameMeasure {
            header,
            payload_len,
            segments,
            end,
        }),
        Err(refused) => step_over(run, at, refused),
    }
}

// All entries of a run: what the walk has come to so far, and its place for a tail.
pub fn measure_salvage(run: &[u8]) -> Salvaging
    ensures { result ≡ salvaging_of run.now (salvaged run.now) }
{
    let mut all = Salvaging {
        count: 0,
        bytes: 0,
        tail: 0,
    };
    // No counted loop: where the next entry starts is read from this one.
    loop {
        match step_at(run, all.tail) {
            Step::Frame(measure) => {
                all.count += 1;
                all.bytes += measure.payload_len;
                all.tail = measure.end;
            }
            Step::Over(_, next) => {
                all.count += 1;
                all.tail = next;
            }
            Step::Last(_) => {
                return Salvaging {
                    count: all.count + 1,
                    ..all
                };
            }
            Step::End => {
                return all;
            }
        }
    }
}
