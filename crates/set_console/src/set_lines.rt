// The lines of a set.
ghost use Rattle.std.specs.Prelude.{◌≡◌, false, ◌+◌, length};
ghost use Rattle.refusal.specs.Checks.{passes};
ghost use Rattle.frames.specs.Line.{longest_line};
ghost use Rattle.lines.specs.Slots.{line_count};
ghost use Rattle.lines.specs.Lines.{line_at, set_lines};
ghost use Rattle.writing.specs.Write.{write_verdict};
ghost use Rattle.storage.specs.Sets.{Storable};
ghost use Rattle.console.specs.Writing.{pending_in, Puts, printed};
ghost use Rattle.console.specs.Reading.{KeepsInput};
ghost use Rattle.set_console.specs.Writing.{put_if};
ghost use Rattle.writing.proofs.GivenLaws.{given-within, given-short};

use crate::texts::{Texts, put_text, put_texts};
use console::{Console, KEPT};
use design::Design;
use refusal::Cause;
use writing::write_line;

// A set in parts, as C lends it to the writer.
#[derive(Clone, Copy, Debug)]
pub struct SetLines<'a> {
    pub design: Design,
    pub initial: &'a [u32],
    pub offsets: &'a [i32],
}

impl Texts for SetLines<'_> {
    ghost count = { λ lines. line_count lines.design };

    ghost text = { λ lines n. line_at lines.design lines.initial.now lines.offsets.now n };

    ghost verdict = { λ lines n room. write_verdict lines.design lines.initial.now lines.offsets.now n room };

    ghost longest = { λ lines. longest_line };

    ghost within = { λ lines n room passed. given-within _ _ _ n room passed };

    ghost short = { λ lines n room passed. given-short _ _ _ n room passed };

    fn write(&self, number: usize, buffer: &mut [u8]) -> Result<usize, Cause> {
        write_line(self.design, self.initial, self.offsets, number, buffer)
    }
}

// Puts line `number` of a set and a newline, if the writer gives the line. The answer is whether it does.
pub fn put_line(
    console: &mut Console<impl Print>,
    d: Design,
    initial: &[u32],
    offsets: &[i32],
    number: usize,
) -> bool
    ensures text { Puts (length console.old.output) (pending_in console.old)
        (put_if (write_verdict d initial.now offsets.now number (longest_line + 1)) (line_at d initial.now offsets.now number))
        (pending_in console.new) }
    ensures given { result ≡ passes (write_verdict d initial.now offsets.now number (longest_line + 1)) }
    ensures input { KeepsInput console.old console.new }
    ensures room { length console.new.output ≡ length console.old.output }
{
    let lines = SetLines {
        design: d,
        initial,
        offsets,
    };
    put_text(console, &lines, number, &mut [0u8; KEPT])
}

// inner: puts the lines of a set, one after another. No program begins with the lines of a set of which one is refused.
pub fn put_set(console: &mut Console<impl Print>, d: Design, initial: &[u32], offsets: &[i32])
    requires { Storable (record { design = d; initial = initial.now; offsets = offsets.now }) }
    ensures text { console.new.failed ≡ false
        → Puts (length console.old.output) (pending_in console.old) (printed (set_lines d initial.now offsets.now)) (pending_in console.new) }
    ensures input { KeepsInput console.old console.new }
    ensures room { length console.new.output ≡ length console.old.output }
{
    let lines = SetLines {
        design: d,
        initial,
        offsets,
    };
    put_texts(console, &lines, &mut [0u8; KEPT]);
}
