// Texts that a writer gives by their number, put one after another.
ghost use Rattle.std.specs.Prelude.{◌≡◌, false, [], ◌∷◌, ◌++◌, List, ℕ, ◌<◌, ◌≤◌, length, take, Ok};
ghost use Rattle.general.specs.Below.{list_below};
ghost use Rattle.refusal.specs.Verdict.{Verdict};
ghost use Rattle.refusal.specs.Checks.{answer, leaves, passes};
ghost use Rattle.console.specs.Writing.{pending_in, Puts, printed};
ghost use Rattle.console.specs.Reading.{KeepsInput};
ghost use Rattle.set_console.specs.Writing.{put_if};

use console::Console;
use refusal::Cause;

// Texts with numbers from 0 on, which a writer gives one by one: the lines of a set, or its records. The verdict on a text is by its number
// and by the length of the buffer that it is written to.
pub trait Texts {
    ghost count: { Self → ℕ };

    ghost text: { Self → ℕ → List ℕ };

    ghost verdict: { Self → ℕ → ℕ → Verdict };

    ghost longest: { Self → ℕ };

    fn write(&self, number: usize, buffer: &mut [u8]) -> Result<usize, Cause>
        ensures answer { result ≡ answer (verdict self.now number (length buffer.old)) (length (text self.now number)) }
        ensures buffer { buffer.new ≡ leaves (verdict self.now number (length buffer.old)) (text self.now number) buffer.old };

    // Only the texts below `count` are given, and none is longer than `longest`.
    ghost within: { (texts : Self) (n room : ℕ) → verdict texts n room ≡ Ok tt → n < count texts };

    ghost short: { (texts : Self) (n room : ℕ) → verdict texts n room ≡ Ok tt → length (text texts n) ≤ longest texts };
}

// Puts a text that stands at the start of a buffer, and a newline, for which the buffer has room.
fn put_with_newline(console: &mut Console<impl Print>, buffer: &mut [u8], count: usize)
    requires { count < length buffer.old }
    ensures text { Puts (length console.old.output) (pending_in console.old) (take count buffer.old ++ 10 ∷ []) (pending_in console.new) }
    ensures input { KeepsInput console.old console.new }
    ensures room { length console.new.output ≡ length console.old.output }
{
    buffer[count] = b'\n';
    console.put(&buffer[..count + 1]);
}

// Puts a text and a newline, if the writer gives it, by a buffer that has room for both. The answer is whether it does: why
// it does not, no caller asks.
pub fn put_text<T: Texts>(
    console: &mut Console<impl Print>,
    texts: &T,
    number: usize,
    buffer: &mut [u8],
) -> bool
    requires { T.longest texts.now < length buffer.old }
    ensures text { Puts (length console.old.output) (pending_in console.old)
        (put_if (T.verdict texts.now number (length buffer.old)) (T.text texts.now number)) (pending_in console.new) }
    ensures given { result ≡ passes (T.verdict texts.now number (length buffer.old)) }
    ensures input { KeepsInput console.old console.new }
    ensures room { length console.new.output ≡ length console.old.output }
{
    let Ok(count) = texts.write(number, buffer) else {
        return false;
    };
    put_with_newline(console, buffer, count);
    true
}

// inner: puts the texts one after another, until the writer gives no more or one fails to go out. The writer gives all of them, and says
// where they end.
pub fn put_texts<T: Texts>(console: &mut Console<impl Print>, texts: &T, buffer: &mut [u8])
    requires longest { T.longest texts.now < length buffer.old }
    requires few { T.count texts.now < usize.MAX }
    requires given { (n : ℕ) → n < T.count texts.now → T.verdict texts.now n (length buffer.old) ≡ Ok tt }
    ensures text { console.new.failed ≡ false
        → Puts (length console.old.output) (pending_in console.old) (printed (list_below (T.count texts.now) (T.text texts.now)))
        (pending_in console.new) }
    ensures input { KeepsInput console.old console.new }
    ensures room { length console.new.output ≡ length console.old.output }
{
    for number in 0..usize::MAX {
        if !put_text(console, texts, number, buffer) || console.has_failed() {
            return;
        }
    }
}
