// Lines of the input that end with a newline, or with a carriage return and a newline.
ghost use Rattle.std.specs.Prelude.{◌≡◌, ◌+◌, ◌≤◌, length, take};
ghost use Rattle.records.specs.Record.{longest_record};
ghost use Rattle.hex_console.specs.LineTexts.{line_text, without_return, TextCame};

use console::{Console, LineEnd, LineStart};
use records::LONGEST_RECORD;

// The longest record and the two characters that may end its line. A line with so many bytes before its newline is longer than any record,
// also without a carriage return at its end, so no more of it is needed.
pub const KEPT: usize = LONGEST_RECORD + 2;

// How many of the first bytes are left without one carriage return at their end.
fn without_return(bytes: &[u8], count: usize) -> usize
    requires { count ≤ length bytes.now }
    ensures upper_bound { result ≤ count }
    ensures bytes_value { take result bytes.now ≡ without_return (take count bytes.now) }
{
    if count == 0 {
        return count;
    }
    if bytes[count - 1] == b'\r' {
        return count - 1;
    }
    count
}

// How many of the bytes read stand on the line: a carriage return counts unless a newline came behind it.
fn text_length(bytes: &[u8], count: usize, end: LineEnd) -> usize
    requires { count ≤ length bytes.now }
    ensures upper_bound { result ≤ count }
    ensures bytes_value { take result bytes.now ≡ line_text end (take count bytes.now) }
{
    match end {
        LineEnd::Newline => without_return(bytes, count),
        LineEnd::Input | LineEnd::Cut => count,
    }
}

// inner: reads a line of the input, if there is one. Its text stands at the start of the lent bytes.
pub fn read_text(console: &mut Console<impl Input + Print>, bytes: &mut [u8]) -> Option<LineStart>
    requires { longest_record + 2 ≤ length bytes.old }
    ensures read { TextCame bytes.new result console.old console.new }
    ensures input { length console.new.input ≡ length console.old.input }
    ensures output { console.new.output ≡ console.old.output }
{
    let start = console.read_start(bytes)?;
    let count = text_length(bytes, start.count, start.end);
    Some(LineStart {
        count,
        end: start.end,
    })
}
