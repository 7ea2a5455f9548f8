// The functions of gateway_salvage as C calls them, each with the clauses that it has there.
#![tactic(auto)]

ghost use Rattle.gateway_salvage.specs.SalvageWords.{SalvagesInWords};

#[unsafe(no_mangle)]
pub extern "C" fn lattrugone_salvage(
    run: &[u8],
    room: &mut [u8],
    row: &mut [u64],
    words: &mut [u64],
) -> u8
    ensures { SalvagesInWords run.now room.old row.old words.old result room.new row.new words.new }
{
    gateway_salvage::lattrugone_salvage(run, room, row, words)
}
