// The text of a question: a line of three decimal numbers with exactly one space between them. It is read a character at a time, so that
// a line of any length needs no buffer.
#![tactic(auto)]

ghost use Rattle.std.specs.Prelude.{◌≡◌, []};
ghost use Rattle.question_text.specs.Question.{fields, kept_of, with_character, question_of};

use word_text::WordText;

// What is asked for: the smallest table design of this kind, with input words of w bits and output words of q bits. A kind is a number, since
// the first refusal is for every number that is none.
#[derive(Clone, Copy, Debug, PartialEq, Eq)]
pub struct Question {
    pub kind: u32,
    pub w: u32,
    pub q: u32,
}

// As many spaces as no question has. It stands for more spaces, too: an `Option` would be looked into for each character.
const TOO_MANY: usize = 3;

// What is known of a line so far: its numbers, and how many spaces came, which tell the number that the next digit belongs to.
#[derive(Clone, Copy, Debug, PartialEq, Eq)]
pub struct QuestionText {
    pub numbers: [WordText; 3],
    pub spaces: usize,
}

impl QuestionText {
    // No character yet.
    pub fn new() -> QuestionText
        ensures { result ≡ kept_of (fields []) }
    {
        QuestionText {
            numbers: [WordText::new(); 3],
            spaces: 0,
        }
    }

    // The line with one more character.
    pub fn with(mut self, c: u8) -> QuestionText
        ensures { result ≡ with_character self c }
    {
        if c == b' ' {
            // Held at too many, so that it stops growing however many spaces follow.
            self.spaces = self.spaces.saturating_add(1).min(TOO_MANY);
        } else if self.spaces < TOO_MANY {
            self.numbers[self.spaces] = self.numbers[self.spaces].with(c);
        }
        self
    }

    // What the whole line is.
    pub fn question(self) -> Option<Question>
        ensures { result ≡ question_of self }
    {
        if self.spaces != 2 {
            return None;
        }
        let [kind, w, q] = self.numbers;
        Some(Question {
            kind: kind.word()?,
            w: w.word()?,
            q: q.word()?,
        })
    }
}
