// Changing one parameter for C and Rust: document 02, W-204. Slices, numbers and words go as in the crate gateway_head. The result of each:
// how many bytes.
#![tactic(auto)]

ghost use Rattle.std.specs.Prelude.{◌≡◌};
ghost use Rattle.gateway_words.specs.AnswerWords.{laid_words, Answered};
ghost use Rattle.ddm_change.specs.Change.{needed_of};
ghost use Rattle.gateway_change.specs.ChangeWords.{ChangesParam, ChangesFrame};

use gateway_words::put_laid;

// An object's data with the first parameter of a code point rewritten, at the room's first byte: 17, 11, 9.
pub fn lattrugone_change_param(
    data: &[u8],
    code_point: u16,
    new: &[u8],
    room: &mut [u8],
    words: &mut [u64],
) -> u8
    ensures { ChangesParam «data».now code_point new.now room.old words.old result room.new words.new }
{
    let laid = ddm_change::change_param(data, code_point, new, room);
    put_laid(words, laid)
}

// How many bytes that lays down, of so many new ones: 17, 11.
pub fn lattrugone_change_param_len(
    data: &[u8],
    code_point: u16,
    new_len: usize,
    words: &mut [u64],
) -> u8
    ensures { Answered (laid_words (needed_of «data».now code_point new_len)) words.old result words.new }
{
    let laid = ddm_change::change_param_len(data, code_point, new_len);
    put_laid(words, laid)
}

// A request's frame with the first parameter of a code point rewritten, at the room's first byte: 1 or 16, 2, 3, 7, 17, 4, 5, 6, 8,
// 17, 11, 18, 9.
pub fn lattrugone_change_request(
    frame: &[u8],
    code_point: u16,
    new: &[u8],
    room: &mut [u8],
    words: &mut [u64],
) -> u8
    ensures { ChangesFrame frame.now code_point new.now room.old words.old result room.new words.new }
{
    let laid = ddm_change::change_request(frame, code_point, new, room);
    put_laid(words, laid)
}
