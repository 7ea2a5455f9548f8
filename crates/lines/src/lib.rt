// The lines of `framelist` and `salvagelist`: document 01, the last part of "Both sides of each edge".
#![tactic(auto)]

ghost use Rattle.std.specs.Prelude.{◌≡◌};
ghost use Rattle.wire.specs.Bytes.{pick};
ghost use Rattle.text.specs.inner.PutsText.{PutsText};
ghost use Rattle.lines.specs.Lines.{type_text, flags_text, frame_text, refused_text, end_text};

use answer::Refused;
use dss_head::{DssFlags, DssType};
use dss_measure::FrameMeasure;
use text::Text;

// A type's name.
pub fn put_type(text: &mut Text, dss_type: DssType)
    ensures { PutsText (type_text dss_type) text.old text.new }
{
    let name: &[u8] = match dss_type {
        DssType::Request => b"request",
        DssType::Reply => b"reply",
        DssType::Object => b"object",
        DssType::Communication => b"communication",
        DssType::NoReply => b"noreply",
    };
    text.put_text(name);
}

// A flag's letter where it is set.
pub(crate) fn letter(set: bool, letter: u8) -> u8
    ensures { result ≡ pick set letter 45 }
{
    if set { letter } else { b'-' }
}

// Three characters, of which one that isn't set is `-`.
pub fn put_flags(text: &mut Text, flags: DssFlags)
    ensures { PutsText (flags_text flags) text.old text.new }
{
    text.put_byte(letter(flags.chained, b'c'));
    text.put_byte(letter(flags.continue_on_error, b'e'));
    text.put_byte(letter(flags.same_correlation, b's'));
}

// The line of a frame whose first byte stands at `first`.
pub fn put_frame(text: &mut Text, first: usize, measure: FrameMeasure)
    ensures { PutsText (frame_text first measure.header measure.segments measure.payload_len) text.old text.new }
{
    let header = measure.header;
    text.put_number(b"at ", first);
    text.put_text(b" ");
    put_type(text, header.dss_type);
    text.put_text(b" ");
    put_flags(text, header.flags);
    text.put_number(b" corr ", usize::from(header.correlation_id));
    text.put_number(b" seg ", measure.segments);
    text.put_number(b" bytes ", measure.payload_len);
    text.put_text(b"\n");
}

// The line of a refusal.
pub fn put_refused(text: &mut Text, refused: Refused)
    ensures { PutsText (refused_text refused) text.old text.new }
{
    let Refused { why, place } = refused;
    text.put_number(b"refused ", usize::from(why.number()));
    text.put_number(b" at ", place);
    text.put_number(b" value ", why.first_value());
    text.put_text(b"\n");
}

// The last line.
pub fn put_end(text: &mut Text, position: usize, left: usize)
    ensures { PutsText (end_text position left) text.old text.new }
{
    text.put_number(b"end ", position);
    text.put_number(b" left ", left);
    text.put_text(b"\n");
}
