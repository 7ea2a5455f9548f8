// The functions of gateway_measure as C calls them, each with the clauses that it has there.
#![tactic(auto)]

ghost use Rattle.gateway_measure.specs.MeasureWords.{measured_words, rules_of};
ghost use Rattle.gateway_words.specs.AnswerWords.{Answered};
ghost use Rattle.dss_measure.specs.Measure.{measured_at};

#[unsafe(no_mangle)]
pub extern "C" fn lattrugone_measure_frame(
    rules: u8,
    run: &[u8],
    at: usize,
    words: &mut [u64],
) -> u8
    ensures { Answered (measured_words at (measured_at (rules_of rules) run.now at)) words.old result words.new }
{
    gateway_measure::lattrugone_measure_frame(rules, run, at, words)
}
