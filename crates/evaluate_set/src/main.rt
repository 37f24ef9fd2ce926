// Reads a set from standard input, then an input word in decimal on each further line, and writes each word's output word.
#![tactic(auto)]

ghost use Rattle.std.specs.Prelude.{length};
ghost use Rattle.set_console.specs.Reading.{HoldsEverySet};

use console::{BLOCK, Console};
use design::Design;
use design::limits::{MOST_INITIAL, MOST_OFFSETS};
use evaluating::evaluate;
use set_console::answers::{put_refused_line, put_unfinished};
use set_console::set_reader::SetReader;
use word_text::WordText;

// Puts the output word of an input word, or the refusal.
fn put_word(
    console: &mut Console<impl Print>,
    d: Design,
    initial: &[u32],
    offsets: &[i32],
    x: u32,
) {
    match evaluate(d, initial, offsets, x) {
        Ok(word) => {
            console.put_decimal(u64::from(word.0));
            console.put(b"\n");
        }
        Err(cause) => console.put_refused(cause),
    }
}

// Answers each line that is left. The turns are counted, since a loop has to end and the input may not.
fn answer_words(
    console: &mut Console<impl Input + Print>,
    d: Design,
    initial: &[u32],
    offsets: &[i32],
) {
    for _ in 0..u64::MAX {
        // A character at a time, so that a line may be of any length.
        let Some(text) = console.fold_line(WordText::new(), WordText::with) else {
            return;
        };
        match text.word() {
            Some(x) => put_word(console, d, initial, offsets, x),
            None => console.put(b"NOT A WORD\n"),
        }
        if console.has_failed() {
            return;
        }
    }
}

fn read_and_answer(
    console: &mut Console<impl Input + Print>,
    initial: &mut [u32],
    offsets: &mut [i32],
)
    requires { HoldsEverySet (length initial.old) (length offsets.old) }
{
    let mut reader = SetReader::new();
    match reader.read_set(console, initial, offsets) {
        Ok(true) => answer_words(console, reader.state.design, initial, offsets),
        Ok(false) => put_unfinished(console, reader.lines),
        Err(cause) => put_refused_line(console, reader.lines, cause),
    }
}

fn main(rt: HostRuntime) {
    let mut input = [0u8; BLOCK];
    let mut output = [0u8; BLOCK];
    let mut initial = [0u32; MOST_INITIAL];
    let mut offsets = [0i32; MOST_OFFSETS];
    let mut console = Console::new(&rt, &mut input, &mut output);
    read_and_answer(&mut console, &mut initial, &mut offsets);
    console.flush();
}
