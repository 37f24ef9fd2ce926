// Reads one design's line from standard input and writes the report on it.
#![tactic(auto)]

use console::Console;

fn main(rt: HostRuntime) {
    // A byte at a time, so that nothing behind the line is taken from the input.
    let mut input = [0u8; 1];
    let mut output = [0u8; 128];
    let mut console = Console::new(&rt, &mut input, &mut output);
    let line = console.read_line();
    // No line is an empty one.
    let text = match &line {
        Some(line) => line.text(),
        None => &[],
    };
    console.put_report(text);
    console.flush();
}
