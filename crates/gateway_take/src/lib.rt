// Taking one frame for C and Rust: document 02, W-208, "Measure, then take"; measuring it is the crate gateway_measure's, which says
// why there are two.
#![tactic(auto)]

ghost use Rattle.gateway_measure.specs.MeasureWords.{rules_of};
ghost use Rattle.gateway_take.specs.TakeWords.{TakesFrame};

use gateway_measure::{put_measured, rules_of};

// The words that lattrugone_measure_frame has, and the payload at the room's first byte.
pub fn lattrugone_take_frame(
    rules: u8,
    run: &[u8],
    at: usize,
    room: &mut [u8],
    words: &mut [u64],
) -> u8
    ensures { TakesFrame (rules_of rules) run.now at room.old words.old result room.new words.new }
{
    let rules = rules_of(rules);
    let taken = dss_take::take(rules, run, at, room);
    put_measured(words, at, taken)
}
