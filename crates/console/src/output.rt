// Texts that go to standard output, gathered in a block.
ghost use Rattle.std.specs.Prelude.{◌≡◌, true, ◌+◌, ◌≤◌, length};
ghost use Rattle.console.specs.Counts.{IsPrefixLen};
ghost use Rattle.console.specs.Reading.{KeepsInput};
ghost use Rattle.console.specs.Writing.{flushed, with_room, pending_in, pending_with};

use crate::Console;
use itoa::Buffer;
use refusal::Cause;
use report_text::Text;
use std::io;

impl<'r, 'b, R: Print> Console<'r, 'b, R> {
    // Writes what is pending, and leaves it so. A function of its own, as the check forgets what a block holds that is lent behind a
    // `&mut self`.
    fn write_pending(&self) -> io::Result<()> {
        self.rt.write_all(&self.output[..self.pending])
    }

    // Writes what is pending.
    pub fn flush(&mut self)
        ensures value { self.new ≡ flushed self.old self.new.failed }
        ensures failed_value { self.old.failed ≡ true → self.new.failed ≡ true }
    {
        if self.write_pending().is_err() {
            self.failed = true;
        }
        self.pending = 0;
    }

    // Room in the block for so many bytes behind what is pending: where there is none, what is pending goes out.
    fn make_room(&mut self, count: usize)
        ensures { self.new ≡ with_room self.old count self.new.failed }
    {
        if self.output.len() - self.pending < count {
            self.flush();
        }
    }

    // The text behind what is pending. That goes out first where the block has no room for both; a text that the block does not hold goes out
    // by itself.
    pub fn put(&mut self, text: &[u8])
        ensures pending { pending_in self.new ≡ pending_with self.old text.now }
        ensures input { KeepsInput self.old self.new }
        ensures room { length self.new.output ≡ length self.old.output }
    {
        self.make_room(text.len());
        if self.output.len() - self.pending < text.len() {
            if self.rt.write_all(text).is_err() {
                self.failed = true;
            }
            return;
        }
        let end = self.pending + text.len();
        self.output[self.pending..end].copy_from_slice(text);
        self.pending = end;
    }

    // A number in decimal.
    pub fn put_decimal(&mut self, n: u64)
        ensures input { KeepsInput self.old self.new }
        ensures room { length self.new.output ≡ length self.old.output }
    {
        self.put(Buffer::new().format(n).as_bytes());
    }

    // A text of which the caller knows that it lies within its array.
    fn put_text(&mut self, text: Text)
        requires { IsPrefixLen text.count text.bytes }
        ensures input { KeepsInput self.old self.new }
        ensures room { length self.new.output ≡ length self.old.output }
    {
        self.put(&text.bytes[..text.count]);
    }

    // The report on a line.
    pub fn put_report(&mut self, line: &[u8])
        ensures input { KeepsInput self.old self.new }
        ensures room { length self.new.output ≡ length self.old.output }
    {
        self.put_text(report_text::report(line));
    }

    // A refusal and its newline.
    pub fn put_refused(&mut self, cause: Cause)
        ensures input { KeepsInput self.old self.new }
        ensures room { length self.new.output ≡ length self.old.output }
    {
        self.put_text(report_text::refused(cause));
    }
}
