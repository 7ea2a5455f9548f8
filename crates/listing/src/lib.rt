// The text of `framelist` and `salvagelist`: document 01, the last part of "Both sides of each edge".
#![tactic(auto)]

ghost use Rattle.answer.specs.Rooms.{Lays};
ghost use Rattle.dss_frame.specs.declared.Rules;
ghost use Rattle.text.specs.inner.Puts.{Puts};
ghost use Rattle.text.specs.inner.PutsText.{PutsText};
ghost use Rattle.listing.specs.ListTexts.{frames_text, salvage_text, list_text};

use answer::Refused;
use dss_frame::Rules;
use dss_salvage::Step;
use text::Text;

// The most bytes that are read.
pub const MOST: usize = 65536;

// Frame by frame, until one isn't whole, yet or ever, or is refused.
pub(crate) fn put_frames(run: &[u8], text: &mut Text)
    ensures { PutsText (frames_text run.now) text.old text.new }
{
    let mut position = 0;
    // No counted loop: where the next frame starts is read from this one.
    loop {
        match dss_measure::measure(Rules::Reader, run, position) {
            Ok(measure) => {
                lines::put_frame(text, position, measure);
                position = measure.end;
            }
            Err(refused) if refused.why.not_whole() => {
                return lines::put_end(text, position, run.len() - position);
            }
            Err(refused) => {
                return lines::put_refused(text, refused);
            }
        }
    }
}

// Entry by entry, and the tail.
pub(crate) fn put_salvage(run: &[u8], text: &mut Text)
    ensures { PutsText (salvage_text run.now) text.old text.new }
{
    let mut position = 0;
    // No counted loop: where the next entry starts is read from this one.
    loop {
        match dss_salvage::step_at(run, position) {
            Step::Frame(measure) => {
                lines::put_frame(text, position, measure);
                position = measure.end;
            }
            Step::Over(refused, next) => {
                lines::put_refused(text, refused);
                position = next;
            }
            Step::Last(refused) => {
                lines::put_refused(text, refused);
                break;
            }
            Step::End => {
                break;
            }
        }
    }
    lines::put_end(text, position, run.len() - position);
}

// The list under either's rules.
pub(crate) fn put_list(rules: Rules, run: &[u8], text: &mut Text)
    ensures { PutsText (list_text rules run.now) text.old text.new }
{
    if MOST < run.len() {
        return text.put_text(b"input too long\n");
    }
    // Two kinds: a closure for each would be this match again.
    match rules {
        Rules::Reader => put_frames(run, text),
        Rules::Salvage => put_salvage(run, text),
    }
}

// The list at a room's start, and how long it is, be the room as long or not.
pub(crate) fn put_at_start(rules: Rules, run: &[u8], room: &mut [u8]) -> usize
    ensures { Puts (list_text rules run.now) room.old 0 result room.new }
{
    let mut text = Text { room, at: 0 };
    put_list(rules, run, &mut text);
    text.at
}

// Either list, at the room's start: refusal 9. It is put into no room to find its length, and then, where it fits, into the room.
pub fn list(rules: Rules, run: &[u8], room: &mut [u8]) -> Result<usize, Refused>
    ensures { Lays (list_text rules run.now) room.old result room.new }
{
    let need = put_at_start(rules, run, &mut room[..0]);
    answer::room_for(0, room.len(), need)?;
    put_at_start(rules, run, room);
    Ok(need)
}

// What `framelist` writes of an input.
pub fn frame_list(input: &[u8], room: &mut [u8]) -> Result<usize, Refused>
    ensures { Lays (list_text Rules.Reader input.now) room.old result room.new }
{
    list(Rules::Reader, input, room)
}

// What `salvagelist` writes of an input.
pub fn salvage_list(input: &[u8], room: &mut [u8]) -> Result<usize, Refused>
    ensures { Lays (list_text Rules.Salvage input.now) room.old result room.new }
{
    list(Rules::Salvage, input, room)
}
