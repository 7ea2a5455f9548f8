// The functions of gateway_change as C calls them, each with the clauses that it has there.
#![tactic(auto)]

ghost use Rattle.gateway_change.specs.ChangeWords.{ChangesFrame, ChangesParam};
ghost use Rattle.gateway_words.specs.AnswerWords.{Answered, laid_words};
ghost use Rattle.ddm_change.specs.Change.{needed_of};

#[unsafe(no_mangle)]
pub extern "C" fn lattrugone_change_param(
    data: &[u8],
    code_point: u16,
    new: &[u8],
    room: &mut [u8],
    words: &mut [u64],
) -> u8
    ensures { ChangesParam «data».now code_point new.now room.old words.old result room.new words.new }
{
    gateway_change::lattrugone_change_param(data, code_point, new, room, words)
}

#[unsafe(no_mangle)]
pub extern "C" fn lattrugone_change_param_len(
    data: &[u8],
    code_point: u16,
    new_len: usize,
    words: &mut [u64],
) -> u8
    ensures { Answered (laid_words (needed_of «data».now code_point new_len)) words.old result words.new }
{
    gateway_change::lattrugone_change_param_len(data, code_point, new_len, words)
}

#[unsafe(no_mangle)]
pub extern "C" fn lattrugone_change_request(
    frame: &[u8],
    code_point: u16,
    new: &[u8],
    room: &mut [u8],
    words: &mut [u64],
) -> u8
    ensures { ChangesFrame frame.now code_point new.now room.old words.old result room.new words.new }
{
    gateway_change::lattrugone_change_request(frame, code_point, new, room, words)
}
