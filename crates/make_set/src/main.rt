// Reads one design's line from standard input and writes the lines of its filled set, or the refusal.
#![tactic(auto)]

ghost use Rattle.std.specs.Prelude.{length};
ghost use Rattle.set_console.specs.Reading.{HoldsEverySet};

use console::{BLOCK, Console};
use design::limits::{MOST_INITIAL, MOST_OFFSETS};
use filling::fill;
use frames::design_line;
use refusal::Cause;
use set_console::set_lines::put_set;

// The line's refusals are the report's; then the fill's, of which 10 never comes.
fn make(
    console: &mut Console<impl Print>,
    line: &[u8],
    initial: &mut [u32],
    offsets: &mut [i32],
) -> Result<(), Cause>
    requires { HoldsEverySet (length initial.old) (length offsets.old) }
{
    let d = design_line(line)?;
    fill(d, initial, offsets)?;
    put_set(console, d, initial, offsets);
    Ok(())
}

fn main(rt: HostRuntime) {
    // A byte at a time, so that nothing behind the line is taken from the input.
    let mut input = [0u8; 1];
    let mut output = [0u8; BLOCK];
    let mut initial = [0u32; MOST_INITIAL];
    let mut offsets = [0i32; MOST_OFFSETS];
    let mut console = Console::new(&rt, &mut input, &mut output);
    let line = console.read_line();
    let text = match &line {
        Some(line) => line.text(),
        None => b"",
    };
    if let Err(cause) = make(&mut console, text, &mut initial, &mut offsets) {
        console.put_refused(cause);
    }
    console.flush();
}
