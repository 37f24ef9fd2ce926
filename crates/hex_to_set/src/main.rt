// Reads a design's line and the Intel HEX records of its set from standard input, and writes the set's lines, or the refusal.
#![tactic(auto)]

ghost use Rattle.std.specs.Prelude.{length};
ghost use Rattle.tables.specs.Inputs.{Usable};
ghost use Rattle.record_storage.specs.RecordStorage.{Recordable};
ghost use Rattle.set_console.specs.Reading.{HoldsEverySet};

use console::{BLOCK, Console};
use design::limits::{MOST_INITIAL, MOST_OFFSETS};
use design::{Design, LegalDesign};
use hex_console::read_design;
use hex_console::record_reader::RecordReader;
use lines::some_over;
use refusal::Cause;
use set_console::answers::{put_refused_line, put_unfinished};
use set_console::set_lines::put_set;

// Puts the lines of a set that records hold. Records carry initial entries that lines do not: of such a set no line is put.
fn put_loaded(console: &mut Console<impl Print>, design: Design, initial: &[u32], offsets: &[i32])
    requires { Recordable (record { design = design; initial = initial.now; offsets = offsets.now }) }
{
    let legal = LegalDesign { design };
    if some_over(legal, initial) {
        console.put_refused(Cause::InitialRange);
        return;
    }
    put_set(console, design, initial, offsets);
}

fn load_and_write(
    console: &mut Console<impl Input + Print>,
    design: Design,
    initial: &mut [u32],
    offsets: &mut [i32],
)
    requires { Usable design (length initial.old) (length offsets.old) }
{
    let mut reader = RecordReader::new(design);
    match reader.read_set(console, initial, offsets) {
        Ok(true) => put_loaded(console, design, initial, offsets),
        Ok(false) => put_unfinished(console, reader.lines()),
        Err(cause) => put_refused_line(console, reader.lines(), cause),
    }
}

fn read_and_write(
    console: &mut Console<impl Input + Print>,
    initial: &mut [u32],
    offsets: &mut [i32],
)
    requires { HoldsEverySet (length initial.old) (length offsets.old) }
{
    match read_design(console) {
        Ok(Some(design)) => load_and_write(console, design, initial, offsets),
        Ok(None) => put_unfinished(console, 0),
        Err(cause) => put_refused_line(console, 0, cause),
    }
}

fn main(rt: HostRuntime) {
    let mut input = [0u8; BLOCK];
    let mut output = [0u8; BLOCK];
    let mut initial = [0u32; MOST_INITIAL];
    let mut offsets = [0i32; MOST_OFFSETS];
    let mut console = Console::new(&rt, &mut input, &mut output);
    read_and_write(&mut console, &mut initial, &mut offsets);
    console.flush();
}
