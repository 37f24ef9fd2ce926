// What the programs over Intel HEX share: reading a design and the records of its set from standard input, and writing the records of a
// set to standard output. No contract can say which bytes come in or go out; what can be said of a set that is read is promised.
#![tactic(auto)]

pub mod record_reader;
pub mod set_records;
pub mod text;

ghost use Rattle.std.specs.Prelude.{◌≡◌, length};
ghost use Rattle.hex_console.specs.Loaded.{DesignRead, DesignTold};

use console::Console;
use design::Design;
use frames::design_line;
use refusal::Cause;
use text::{KEPT, read_text};

// Reads a design's line from the input, if there is a line. The line stands by itself, as the report's does: it is refused with 15, 16,
// 1 to 9, an empty one too.
pub fn read_design(console: &mut Console<impl Input + Print>) -> Result<Option<Design>, Cause>
    ensures design { DesignRead result }
    ensures told { DesignTold console.old console.new result }
    ensures input { length console.new.input ≡ length console.old.input }
    ensures output { console.new.output ≡ console.old.output }
{
    let mut bytes = [0u8; KEPT];
    let Some(line) = read_text(console, &mut bytes) else {
        return Ok(None);
    };
    let design = design_line(&bytes[..line.count])?;
    Ok(Some(design))
}
