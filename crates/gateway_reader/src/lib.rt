// The reader for C and Rust: document 01, module 3. Slices, numbers and words go as in the crate gateway_head. A reader goes in as
// its position. All frames at once are the crate gateway_frames'.
#![tactic(auto)]

ghost use Rattle.std.specs.Prelude.{◌≡◌, ◌-◌, length};
ghost use Rattle.wire.specs.Bytes.{pick};
ghost use Rattle.dss_reader.specs.Reader.{frame_end, is_end};
ghost use Rattle.gateway_words.specs.AnswerWords.{Answered};
ghost use Rattle.gateway_reader.specs.ReaderWords.{end_words, frame_words, ReadsFrame};

use answer::Refused;
use dss_frame::DssFrame;
use dss_reader::DssReader;
use gateway_words::{put_laid, put_refusal};

// A frame and the position behind it, or why none was read.
pub(crate) fn put_frame(words: &mut [u64], read: (Result<DssFrame, Refused>, DssReader)) -> u8
    ensures { Answered (frame_words read) words.old result words.new }
{
    let (found, reader) = read;
    match found {
        Ok(frame) => {
            gateway_row::put_frame(words, reader.position, frame.at, frame);
            0
        }
        Err(refused) => put_refusal(words, refused),
    }
}

// How many bytes of the run aren't read yet.
pub fn lattrugone_remaining(run: &[u8], at: usize) -> usize
    ensures { result ≡ length run.now - at }
{
    let reader = DssReader { position: at };
    reader.remaining(run)
}

// 1 where the frame at the position is whole, else 0.
pub fn lattrugone_has_frame(run: &[u8], at: usize) -> u8
    ensures { result ≡ pick (is_end (frame_end run.now at)) 1 0 }
{
    let reader = DssReader { position: at };
    u8::from(reader.has_complete_frame(run))
}

// ---- the frame's end. The result: the byte after its last.

pub fn lattrugone_frame_end(run: &[u8], at: usize, words: &mut [u64]) -> u8
    ensures { Answered (end_words (frame_end run.now at)) words.old result words.new }
{
    let reader = DssReader { position: at };
    put_laid(words, reader.complete_frame_len(run))
}

pub fn lattrugone_first_frame_end(run: &[u8], words: &mut [u64]) -> u8
    ensures { Answered (end_words (frame_end run.now 0)) words.old result words.new }
{
    put_laid(words, DssReader::first_complete_frame_len(run))
}

// ---- one frame, its payload at the room's first byte. In the place's word the position behind it; the result: length, the
// format byte, correlation, the payload's length, segments, its first byte. A refusal's place is the position after it, but 16's,
// which is that of a length inside the frame: the position stays.

pub fn lattrugone_next_frame(run: &[u8], at: usize, room: &mut [u8], words: &mut [u64]) -> u8
    ensures { ReadsFrame run.now at room.old words.old result room.new words.new }
{
    let reader = DssReader { position: at };
    let read = reader.next_frame(run, room);
    put_frame(words, read)
}
