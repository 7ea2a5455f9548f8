// The functions of gateway_object_rows as C calls them, each with the clauses that it has there.
#![tactic(auto)]

ghost use Rattle.gateway_object_rows.specs.ListWords.{ObjectsWords, ParametersWords};

#[unsafe(no_mangle)]
pub extern "C" fn lattrugone_objects(
    run: &[u8],
    work: &mut [u8],
    row: &mut [u64],
    words: &mut [u64],
) -> u8
    ensures { ObjectsWords run.now work.old row.old words.old result work.new row.new words.new }
{
    gateway_object_rows::lattrugone_objects(run, work, row, words)
}

#[unsafe(no_mangle)]
pub extern "C" fn lattrugone_parameters(
    data: &[u8],
    work: &mut [u8],
    row: &mut [u64],
    words: &mut [u64],
) -> u8
    ensures { ParametersWords «data».now work.old row.old words.old result work.new row.new words.new }
{
    gateway_object_rows::lattrugone_parameters(data, work, row, words)
}
