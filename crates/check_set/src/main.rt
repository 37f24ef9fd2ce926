// Reads sets from standard input, line by line, and says of each whether it is faithful.
#![tactic(auto)]

ghost use Rattle.console.specs.Reading.{KeepsBlocks};

use checking::check;
use set_console::answers::put_checked;
use set_files::answer_sets;

fn main(rt: HostRuntime) {
    answer_sets(
        &rt,
        b"",
        |console, d, initial, offsets|
            ensures { KeepsBlocks console.old console.new }
        { put_checked(console, check(d, initial, offsets)) },
    );
}
