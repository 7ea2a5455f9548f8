// Text put into a lent room, one piece behind the other: bytes, words, decimal numbers. What doesn't fit isn't put, and the mark
// goes on, so that the same functions say how long a text is. No `Display` and `write!`: these would fail there, and a contract says every byte.
#![tactic(auto)]

ghost use Rattle.std.specs.Prelude.{[], ◌∷◌, ◌++◌, ◌≡◌, ◌+◌, ◌%◌, ◌<◌, ◌^◌};
ghost use Rattle.text.specs.Texts.{decimal};

// A text on its way into a lent room: the room, and the mark behind the last byte.
#[derive(Drop)]
pub struct Text<'a> {
    pub room: &'a mut [u8],
    pub at: usize,
    // a proof sees what type the mark has only where a body reads it
    ghost fits: { at < 2 ^ 64 },
}

// The last digit of a number. It is narrowed by `as`: TryFrom would answer an error that there can't be.
pub(crate) fn last_digit(n: usize) -> u8
    ensures { result ≡ 48 + n % 10 }
{
    b'0' + (n % 10) as u8
}

impl<'a> Text<'a> {
    ghost use Rattle.text.specs.inner.PutsText.{PutsText};

    // A byte at the mark.
    pub fn put_byte(&mut self, byte: u8)
        ensures { PutsText (byte ∷ []) self.old self.new }
    {
        if self.at < self.room.len() {
            self.room[self.at] = byte;
        }
        self.at = self.at.saturating_add(1);
    }

    // Bytes from the mark on.
    pub fn put_text(&mut self, words: &[u8])
        ensures { PutsText words.now self.old self.new }
    {
        for &byte in words {
            self.put_byte(byte);
        }
    }

    // A number in decimal.
    pub fn put_decimal(&mut self, n: usize)
        ensures { PutsText (decimal n) self.old self.new }
    {
        if 10 <= n {
            self.put_decimal(n / 10);
        }
        self.put_byte(last_digit(n));
    }

    // A word, and a number in decimal behind it.
    pub fn put_number(&mut self, word: &[u8], n: usize)
        ensures { PutsText (word.now ++ decimal n) self.old self.new }
    {
        self.put_text(word);
        self.put_decimal(n);
    }
}
