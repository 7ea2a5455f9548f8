// The functions of gateway_take as C calls them, each with the clauses that it has there.
#![tactic(auto)]

ghost use Rattle.gateway_take.specs.TakeWords.{TakesFrame};
ghost use Rattle.gateway_measure.specs.MeasureWords.{rules_of};

#[unsafe(no_mangle)]
pub extern "C" fn lattrugone_take_frame(
    rules: u8,
    run: &[u8],
    at: usize,
    room: &mut [u8],
    words: &mut [u64],
) -> u8
    ensures { TakesFrame (rules_of rules) run.now at room.old words.old result room.new words.new }
{
    gateway_take::lattrugone_take_frame(rules, run, at, room, words)
}
