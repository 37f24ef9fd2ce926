// What the programs share: reading lines from standard input and writing texts to standard output, each through a block that the program
// lends. No contract can say which bytes come in or go out; what can be said of a line, whatever the input is, `read_start` and `read_line`
// promise.
#![tactic(auto)]

mod fold;
mod line;
mod output;

ghost use Rattle.std.specs.Prelude.{◌≡◌, true, false, length, MatchOption};
ghost use Rattle.console.specs.Counts.{came_count};
ghost use Rattle.console.specs.Reading.{
  in_block,
  left_in,
  with_block,
  Fresh,
  NextRead,
  Takes,
  start_bytes,
  line_bytes,
  StartRead,
  LineRead,
};
ghost use Rattle.console.specs.Resuming.{places_of, placed, within_blocks};
ghost use Rattle.console.specs.Writing.{pending_in};

pub use line::{KEPT, Line, LineEnd, LineStart};
use std::io;
use std::io::Read;
use std::marker::Model;

// Where a program is in its input and output. The runtime has a lifetime of its own, as the check has no proof of a call on it while a
// block of the same lifetime is lent.
#[derive(Drop)]
pub struct Console<'r, 'b, R> {
    rt: &'r R,
    // Of the input's block, the bytes from `at` up to `count` are still to be read; `ended` says whether no other block comes. A flag, since
    // none is left to be read at the start either. The blocks are lent, as each program says how far it may read ahead.
    input: &'b mut [u8],
    at: usize,
    count: usize,
    ended: bool,
    // Of the output's block, the first `pending` bytes are still to be written; `failed` says whether something could not be: a flag, since a
    // program says of no error which it was.
    output: &'b mut [u8],
    pending: usize,
    failed: bool,
}

// A contract sees the two blocks and the places in them.
impl<'r, 'b, R> Model for Console<'r, 'b, R> {
    ghost use Rattle.std.specs.Prelude.{◌≤◌, length};
    ghost use Rattle.console.specs.Blocks.{Blocks};

    ghost Value = { Blocks };

    ghost view = { λ c. record {
      input = c.input.now;
      at = c.at;
      count = c.count;
      ended = c.ended;
      output = c.output.now;
      pending = c.pending;
      failed = c.failed;
    } };

    ghost invariant = { λ c. (c.count ≤ length c.input.now) × (c.pending ≤ length c.output.now) };
}

// Where a program is in its input and output, apart from the blocks: a copy, from which it may go on in any blocks, at any time.
#[derive(Clone, Copy, Debug, PartialEq, Eq)]
pub struct Places {
    pub at: usize,
    pub count: usize,
    pub ended: bool,
    pub pending: usize,
    pub failed: bool,
}

// How many bytes a block has in a program that reads or writes whole sets.
pub const BLOCK: usize = 4096;

impl<'r, 'b, R> Console<'r, 'b, R> {
    // Nothing has come in, and nothing is to go out.
    pub fn new(rt: &'r R, input: &'b mut [u8], output: &'b mut [u8]) -> Console<'r, 'b, R>
        ensures { result ≡ record {
          input = input.old;
          at = 0;
          count = 0;
          ended = false;
          output = output.old;
          pending = 0;
          failed = false;
        } }
    {
        Console {
            rt,
            input,
            at: 0,
            count: 0,
            ended: false,
            output,
            pending: 0,
            failed: false,
        }
    }

    // Goes on in these blocks from these places, whatever they are. They are brought within the blocks, so what lies beyond a block is neither
    // read nor written; what is left to be read and what is pending stay what they are by these places.
    pub fn resume(
        rt: &'r R,
        input: &'b mut [u8],
        output: &'b mut [u8],
        places: Places,
    ) -> Console<'r, 'b, R>
        ensures value { result ≡ within_blocks (placed input.old output.old places) }
        ensures next { (in_block result).0 ≡ (in_block (placed input.old output.old places)).0 }
        ensures left { left_in result ≡ left_in (placed input.old output.old places) }
        ensures pending { pending_in result ≡ pending_in (placed input.old output.old places) }
    {
        let count = places.count.min(input.len());
        let pending = if places.pending <= output.len() {
            places.pending
        } else {
            0
        };
        Console {
            rt,
            input,
            at: places.at,
            count,
            ended: places.ended,
            output,
            pending,
            failed: places.failed,
        }
    }

    // Where the program is, to go on from there.
    pub fn places(&self) -> Places
        ensures { result ≡ places_of self.now }
    {
        Places {
            at: self.at,
            count: self.count,
            ended: self.ended,
            pending: self.pending,
            failed: self.failed,
        }
    }

    // Whether something could not be written.
    pub fn has_failed(&self) -> bool
        ensures { result ≡ self.now.failed }
    {
        self.failed
    }

    // The next byte of the input's block, unless none is left.
    fn in_block(&mut self) -> Option<u8>
        ensures value { (result, self.new) ≡ in_block self.old }
        ensures input { self.new.input ≡ self.old.input }
        ensures output { self.new.output ≡ self.old.output }
    {
        if self.at < self.count {
            let byte = self.input[self.at];
            self.at += 1;
            return Some(byte);
        }
        None
    }

    // A block of which so many bytes came is to be read from its start; an error says that none could be read. Where none came, the input has
    // ended.
    fn fill(&mut self, got: io::Result<usize>)
        ensures { self.new ≡ with_block self.old (came_count got (length self.old.input)) }
    {
        self.at = 0;
        self.count = got.unwrap_or(0).min(self.input.len());
        self.ended = self.count == 0;
    }
}

impl<'r, 'b, R: Input + Print> Console<'r, 'b, R> {
    // Reads the next block, as much as one call gives, so that nothing that is there is held up. The block may have to be waited for, so what
    // is pending goes out before. An input that cannot be read counts as ended.
    fn next_block(&mut self)
        ensures fresh { Fresh self.new }
        ensures input { length self.new.input ≡ length self.old.input }
        ensures output { self.new.output ≡ self.old.output }
    {
        self.flush();
        let got = self.rt.reader().read(self.input);
        self.fill(got);
    }

    // The next byte of the input, whose end is not asked for again.
    pub fn next_byte(&mut self) -> Option<u8>
        ensures value { NextRead self.old result self.new }
        ensures input { length self.new.input ≡ length self.old.input }
        ensures output { self.new.output ≡ self.old.output }
    {
        let left = self.in_block();
        if left.is_some() || self.ended {
            return left;
        }
        self.next_block();
        self.in_block()
    }

    // inner: the start of a line, up to the newline, the end of the input, or so many bytes as the lent ones are; they stand at the start of
    // these. No more of the line is looked at, so endless input does no harm. There is no line where the input ended before a byte of it: a
    // last line without a newline counts as a line, if it has a byte.
    pub fn read_start(&mut self, bytes: &mut [u8]) -> Option<LineStart>
        ensures start { MatchOption result (self.new.ended ≡ true) (λ start. StartRead bytes.new start self.new) }
        ensures taken { Takes self.old (start_bytes result bytes.new) self.new }
        ensures input { length self.new.input ≡ length self.old.input }
        ensures output { self.new.output ≡ self.old.output }
    {
        for (count, place) in bytes.iter_mut().enumerate() {
            match self.next_byte() {
                None if count == 0 => return None,
                None => {
                    return Some(LineStart {
                        count,
                        end: LineEnd::Input,
                    });
                }
                Some(b'\n') => {
                    return Some(LineStart {
                        count,
                        end: LineEnd::Newline,
                    });
                }
                Some(b) => *place = b,
            }
        }
        Some(LineStart {
            count: bytes.len(),
            end: LineEnd::Cut,
        })
    }

    pub fn read_line(&mut self) -> Option<Line>
        ensures line { MatchOption result (self.new.ended ≡ true) (λ line. LineRead line self.new) }
        ensures taken { Takes self.old (line_bytes result) self.new }
        ensures input { length self.new.input ≡ length self.old.input }
        ensures output { self.new.output ≡ self.old.output }
    {
        let mut bytes = [0u8; KEPT];
        let LineStart { count, end } = self.read_start(&mut bytes)?;
        Some(Line { bytes, count, end })
    }
}
