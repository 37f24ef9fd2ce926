// Reads sets from standard input, line by line, and writes the Intel HEX records of each.
#![tactic(auto)]

ghost use Rattle.std.specs.Prelude.{◌≡◌, length};
ghost use Rattle.console.specs.Reading.{KeepsBlocks, KeepsInput};
ghost use Rattle.storage.specs.Sets.{Storable};

use console::Console;
use design::Design;
use hex_console::set_records::put_records;
use set_files::answer_sets;

// Puts the records of a set that lines hold: records can hold it, too.
fn put_stored(console: &mut Console<impl Print>, d: Design, initial: &[u32], offsets: &[i32])
    requires { Storable (record { design = d; initial = initial.now; offsets = offsets.now }) }
    ensures input { KeepsInput console.old console.new }
    ensures room { length console.new.output ≡ length console.old.output }
{
    put_records(console, d, initial, offsets);
}

fn main(rt: HostRuntime) {
    // An empty line keeps a HEX file apart from the one before it, and from what is said where a later set breaks off.
    answer_sets(
        &rt,
        b"\n",
        |console, d, initial, offsets|
            requires { Storable (record { design = d; initial = initial.now; offsets = offsets.now }) }
            ensures { KeepsBlocks console.old console.new }
        { put_stored(console, d, initial, offsets) },
    );
}
