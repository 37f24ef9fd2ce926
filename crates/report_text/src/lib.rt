// The report's one line of text.
#![tactic(auto)]

ghost use Rattle.std.specs.Prelude.{◌≡◌, List, [], ◌++◌, ℕ, ◌+◌, ◌≤◌, length};
ghost use Rattle.report_text.specs.Words.{decimal, text_of};
ghost use Rattle.report_text.specs.Report.{line_text, refused_text, report_of};

use design::LegalDesign;
use frames::design_line;
use itoa::Buffer;
use refusal::Cause;
use sizing::size_of;

// Text of at most 96 bytes: the bytes with zeros behind them, and how many there are. An array with a count: C takes all 96 bytes.
#[derive(Clone, Copy)]
pub struct Text {
    pub bytes: [u8; 96],
    pub count: usize,
}

impl Text {
    // No text yet.
    fn new() -> Text
        ensures text { result ≡ text_of [] }
        ensures count { result.count ≡ 0 }
    {
        Text {
            bytes: [0u8; 96],
            count: 0,
        }
    }

    // The text with the word behind it. The caller sees to it that the word fits.
    fn word(self, word: &[u8]) -> Text
        requires { self.count + length word.now ≤ 96 }
        ensures count { result.count ≡ self.count + length word.now }
        ensures text { (t : List ℕ) → self ≡ text_of t → result ≡ text_of (t ++ word.now) }
    {
        let Text { mut bytes, count } = self;
        let end = count + word.len();
        bytes[count..end].copy_from_slice(word);
        Text { bytes, count: end }
    }

    // The text with n's decimal digits behind it. The caller sees to it that 20 digits fit, which hold every n.
    fn decimal(self, n: u64) -> Text
        requires { self.count + 20 ≤ 96 }
        ensures count { result.count ≤ self.count + 20 }
        ensures text { (t : List ℕ) → self ≡ text_of t → result ≡ text_of (t ++ decimal n) }
    {
        self.word(Buffer::new().format(n).as_bytes())
    }
}

// The line of a refusal.
pub fn refused(cause: Cause) -> Text
    ensures { result ≡ text_of (refused_text cause) }
{
    Text::new()
        .word(b"REFUSED ")
        .decimal(u64::from(u8::from(cause)))
        .word(b"\n")
}

// The line of a design that can be measured. Whether it is admitted stands beside the numbers, which are shown either way.
fn measured(budget: u64, limit: u64, bits: u64, admitted: bool) -> Text
    ensures { result ≡ text_of (line_text budget limit bits admitted) }
{
    let text = Text::new()
        .word(b"BUDGET ")
        .decimal(budget)
        .word(b" LIMIT ")
        .decimal(limit)
        .word(b" BITS ")
        .decimal(bits);
    if admitted {
        text.word(b" ADMITTED\n")
    } else {
        text.word(b" NOT ADMITTED\n")
    }
}

// The report on a design's line: the checks in order, each passed before the next is tried, then the numbers.
pub fn report(line: &[u8]) -> Text
    ensures { result ≡ report_of line.now }
{
    let design = match design_line(line) {
        Ok(design) => design,
        Err(cause) => return refused(cause),
    };
    let legal = LegalDesign { design };
    let budget = legal.budget();
    let limit = design.limit();
    let admitted = budget < limit;
    let bits = if admitted { size_of(legal) } else { 0 };
    measured(budget, limit, bits, admitted)
}
