// Measuring one frame for C and Rust: document 02, W-208, "Measure, then take"; taking it is the crate gateway_take's. Slices, numbers
// and words go as in the crate gateway_head, a frame as in gateway_reader. Either call has an archive of its own, in which nothing but it
// measures: two callers of one long function would keep the compiler from joining it to either, and each frame would cost twice
// as much.
#![tactic(auto)]

ghost use Rattle.std.specs.Prelude.{◌≡◌};
ghost use Rattle.dss_measure.specs.Measure.{measured_at};
ghost use Rattle.gateway_words.specs.AnswerWords.{Answered};
ghost use Rattle.gateway_measure.specs.MeasureWords.{rules_of, measured_words};

use answer::Refused;
use dss_frame::Rules;
use dss_measure::FrameMeasure;
use gateway_words::put_refusal;

// Which rules hold: 0 is the reader's, any other number salvage's. A number, as C says it.
pub fn rules_of(number: u8) -> Rules
    ensures { result ≡ rules_of number }
{
    match number {
        0 => Rules::Reader,
        _ => Rules::Salvage,
    }
}

// A frame that was measured at a place, or taken from there, and the position behind it; or why there is none.
pub fn put_measured(words: &mut [u64], at: usize, measured: Result<FrameMeasure, Refused>) -> u8
    ensures { Answered (measured_words at measured) words.old result words.new }
{
    match measured {
        Ok(measure) => {
            gateway_row::put_frame(words, measure.end, at, measure.record(at, 0));
            0
        }
        Err(refused) => put_refusal(words, refused),
    }
}

// The words that lattrugone_next_frame has.
pub fn lattrugone_measure_frame(rules: u8, run: &[u8], at: usize, words: &mut [u64]) -> u8
    ensures { Answered (measured_words at (measured_at (rules_of rules) run.now at)) words.old result words.new }
{
    let rules = rules_of(rules);
    let measured = dss_take::measure(rules, run, at);
    put_measured(words, at, measured)
}
