// The functions of gateway_frames as C calls them, each with the clauses that it has there.
#![tactic(auto)]

ghost use Rattle.gateway_frames.specs.FramesWords.{ReadsAllFrames};

#[unsafe(no_mangle)]
pub extern "C" fn lattrugone_read_all_frames(
    run: &[u8],
    at: usize,
    room: &mut [u8],
    row: &mut [u64],
    words: &mut [u64],
) -> u8
    ensures { ReadsAllFrames run.now at room.old row.old words.old result room.new row.new words.new }
{
    gateway_frames::lattrugone_read_all_frames(run, at, room, row, words)
}
