// Reads sets from standard input, line by line, and says of each how many of its words are nearest, only just faithful, or neither.
#![tactic(auto)]

ghost use Rattle.console.specs.Reading.{KeepsBlocks};

use counting::count;
use set_console::answers::put_counted;
use set_files::answer_sets;

fn main(rt: HostRuntime) {
    answer_sets(
        &rt,
        b"",
        |console, d, initial, offsets|
            ensures { KeepsBlocks console.old console.new }
        { put_counted(console, count(d, initial, offsets)) },
    );
}
