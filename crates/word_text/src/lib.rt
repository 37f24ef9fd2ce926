// An input word in decimal, read a character at a time, so that a line of any length needs no buffer.
#![tactic(auto)]

ghost use Rattle.std.specs.Prelude.{◌≡◌, []};
ghost use Rattle.word_text.specs.Decimal.{reading_of, longer, after_character, word_of};

// What is known of a line so far: its number, unless it is no word, whatever follows; and whether it has a character yet: a flag, since a
// number is known either way.
#[derive(Clone, Copy, Debug, PartialEq, Eq)]
pub struct WordText {
    pub number: Option<u32>,
    pub begun: bool,
}

// A number with one more digit, unless the character is none or more than 32 bits are needed.
fn longer(number: Option<u32>, c: u8) -> Option<u32>
    ensures { result ≡ longer number c }
{
    let digit = match c {
        b'0'..=b'9' => c - b'0',
        _ => return None,
    };
    number?.checked_mul(10)?.checked_add(u32::from(digit))
}

impl WordText {
    // No character yet.
    pub fn new() -> WordText
        ensures { result ≡ reading_of [] }
    {
        WordText {
            number: Some(0),
            begun: false,
        }
    }

    // The line with one more character.
    pub fn with(self, c: u8) -> WordText
        ensures { result ≡ after_character self c }
    {
        WordText {
            number: longer(self.number, c),
            begun: true,
        }
    }

    // What the whole line is.
    pub fn word(self) -> Option<u32>
        ensures { result ≡ word_of self }
    {
        if self.begun { self.number } else { None }
    }
}
