// What the programs say of a set: the answer of a check, the counts, or why there is none.
ghost use Rattle.std.specs.Prelude.{◌≡◌, length};
ghost use Rattle.console.specs.Reading.{KeepsInput};

use console::Console;
use counting::Counts;
use refusal::Cause;

// Puts a number behind its label.
fn put_number(console: &mut Console<impl Print>, label: &[u8], n: u64)
    ensures input { KeepsInput console.old console.new }
    ensures room { length console.new.output ≡ length console.old.output }
{
    console.put(label);
    console.put_decimal(n);
}

// Puts that the input ended before a set did, by the lines that were accepted before.
pub fn put_unfinished(console: &mut Console<impl Print>, lines: u64)
    ensures input { KeepsInput console.old console.new }
    ensures room { length console.new.output ≡ length console.old.output }
{
    put_number(console, b"UNFINISHED ", lines);
    console.put(b"\n");
}

// Puts why a line is refused, by the lines that were accepted before.
pub fn put_refused_line(console: &mut Console<impl Print>, lines: u64, cause: Cause)
    ensures input { KeepsInput console.old console.new }
    ensures room { length console.new.output ≡ length console.old.output }
{
    put_number(console, b"LINE ", lines);
    console.put(b" ");
    console.put_refused(cause);
}

// Puts the answer of a check.
pub fn put_checked(console: &mut Console<impl Print>, checked: Result<Option<u32>, Cause>)
    ensures input { KeepsInput console.old console.new }
    ensures room { length console.new.output ≡ length console.old.output }
{
    match checked {
        Ok(None) => console.put(b"FAITHFUL\n"),
        Ok(Some(x)) => {
            put_number(console, b"UNFAITHFUL ", u64::from(x));
            console.put(b"\n");
        }
        Err(cause) => console.put_refused(cause),
    }
}

// Puts the five counts.
fn put_counts(console: &mut Console<impl Print>, counts: Counts)
    ensures input { KeepsInput console.old console.new }
    ensures room { length console.new.output ≡ length console.old.output }
{
    put_number(console, b"OUTSIDE ", u64::from(counts.outside));
    put_number(console, b" NEAREST ", u64::from(counts.nearest));
    put_number(console, b" FAITHFUL ", u64::from(counts.faithful));
    put_number(console, b" LOW ", u64::from(counts.low));
    put_number(console, b" HIGH ", u64::from(counts.high));
    console.put(b"\n");
}

// Puts the answer of a count.
pub fn put_counted(console: &mut Console<impl Print>, counted: Result<Counts, Cause>)
    ensures input { KeepsInput console.old console.new }
    ensures room { length console.new.output ≡ length console.old.output }
{
    match counted {
        Ok(counts) => put_counts(console, counts),
        Err(cause) => console.put_refused(cause),
    }
}
