// Lines of any length.
ghost use Rattle.std.specs.Prelude.{◌≡◌, length, IfSome};
ghost use Rattle.console.specs.Folding.{LineFolded};

use crate::Console;

impl<'r, 'b, R: Input + Print> Console<'r, 'b, R> {
    // Folds the next line of the input, however long, a character at a time. The newline is no part of it, and there is no line where the
    // input ended before a character of it. The turns are counted, since a loop has to end and the input may not.
    pub fn fold_line<T: Copy, F: Fn(T, u8) -> T>(&mut self, start: T, with: F) -> Option<T>
        requires { F.IsAlwaysCallable with }
        ensures line { IfSome result (λ text. LineFolded (λ t b u. F.post with t b u) self.old start text self.new) }
        ensures input { length self.new.input ≡ length self.old.input }
        ensures output { self.new.output ≡ self.old.output }
    {
        let mut text = start;
        let mut begun = false;
        'line: for _ in 0..u64::MAX {
            match self.next_byte() {
                None if begun => return Some(text),
                None => return None,
                Some(b'\n') => return Some(text),
                Some(b) => {
                    text = with(text, b);
                    begun = true;
                }
            }
        }
        None
    }
}
