// The start of a line that was read.
ghost use Rattle.std.specs.Prelude.{◌≡◌, ◌≤◌, length, take};

use frames::LONGEST_LINE;

// Why no more of a line is read: its newline came, the input ended, or it is cut off, as there is no room for more of it.
#[derive(Clone, Copy, Debug, PartialEq, Eq)]
pub enum LineEnd {
    Newline,
    Input,
    Cut,
}

// How many bytes of a line were read, and why no more. The bytes stand in the slice that the caller lent.
#[derive(Clone, Copy, Debug, PartialEq, Eq)]
pub struct LineStart {
    pub count: usize,
    pub end: LineEnd,
}

// One byte more than the longest line has.
pub const KEPT: usize = LONGEST_LINE + 1;

// The start of a line, so many bytes at most: a line that has them is refused whatever follows, so no more of it is needed. An array beside
// its count, as programs have no heap.
#[derive(Clone, Copy)]
pub struct Line {
    pub bytes: [u8; KEPT],
    pub count: usize,
    pub end: LineEnd,
    ghost within: { count ≤ length bytes },
}

impl Line {
    // The bytes that were read.
    pub fn text(&self) -> &[u8]
        ensures { result.now ≡ take self.now.count self.now.bytes }
    {
        &self.bytes[..self.count]
    }
}
