// What the programs over whole sets share: reading a set from standard input, and writing the lines of a set, the answer of a check or
// the counts to standard output. No contract can say which bytes come in or go out; what can be said of a set that is read is promised.
#![tactic(auto)]

pub mod answers;
pub mod set_lines;
pub mod set_reader;
pub mod texts;

ghost use Rattle.std.specs.Prelude.{◌≡◌};
ghost use Rattle.set_console.specs.Reading.{came_of};

// What came of the input: a line that was accepted, and no set is complete with it; one that completed a set; none, as the input has ended.
#[derive(Clone, Copy, Debug, PartialEq, Eq)]
pub enum Came {
    Line,
    Set,
    Nothing,
}

// What a line or a record that was accepted comes to.
pub fn came_of(finished: bool) -> Came
    ensures { result ≡ came_of finished }
{
    if finished {
        return Came::Set;
    }
    Came::Line
}
