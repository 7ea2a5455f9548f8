// The functions of gateway_reader as C calls them, each with the clauses that it has there.
#![tactic(auto)]

ghost use Rattle.std.specs.Prelude.{length, ◌-◌, ◌≡◌};
ghost use Rattle.dss_reader.specs.Reader.{frame_end, is_end};
ghost use Rattle.wire.specs.Bytes.{pick};
ghost use Rattle.gateway_words.specs.AnswerWords.{Answered};
ghost use Rattle.gateway_reader.specs.ReaderWords.{ReadsFrame, end_words};

#[unsafe(no_mangle)]
pub extern "C" fn lattrugone_remaining(run: &[u8], at: usize) -> usize
    ensures { result ≡ length run.now - at }
{
    gateway_reader::lattrugone_remaining(run, at)
}

#[unsafe(no_mangle)]
pub extern "C" fn lattrugone_has_frame(run: &[u8], at: usize) -> u8
    ensures { result ≡ pick (is_end (frame_end run.now at)) 1 0 }
{
    gateway_reader::lattrugone_has_frame(run, at)
}

#[unsafe(no_mangle)]
pub extern "C" fn lattrugone_frame_end(run: &[u8], at: usize, words: &mut [u64]) -> u8
    ensures { Answered (end_words (frame_end run.now at)) words.old result words.new }
{
    gateway_reader::lattrugone_frame_end(run, at, words)
}

#[unsafe(no_mangle)]
pub extern "C" fn lattrugone_first_frame_end(run: &[u8], words: &mut [u64]) -> u8
    ensures { Answered (end_words (frame_end run.now 0)) words.old result words.new }
{
    gateway_reader::lattrugone_first_frame_end(run, words)
}

#[unsafe(no_mangle)]
pub extern "C" fn lattrugone_next_frame(
    run: &[u8],
    at: usize,
    room: &mut [u8],
    words: &mut [u64],
) -> u8
    ensures { ReadsFrame run.now at room.old words.old result room.new words.new }
{
    gateway_reader::lattrugone_next_frame(run, at, room, words)
}
