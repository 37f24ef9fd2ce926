// Reads a line of three decimal numbers, kind, w and q, from standard input, and writes the line of the smallest design and its report.
#![tactic(auto)]

use console::{Console, KEPT};
use design::LegalDesign;
use encoding::{design_frame, put_line};
use question_text::{Question, QuestionText};
use searching::smallest;

// The design's line, and what the report says of it.
fn put_design<R: Print>(console: &mut Console<'_, '_, R>, legal: LegalDesign) {
    let frame = design_frame(legal);
    let digits = 2 * (frame.count + 1);
    let mut line = [0u8; KEPT];
    put_line(frame, &mut line);
    let text = &line[..digits];
    console.put(text);
    console.put(b"\n");
    console.put_report(text);
}

fn answer<R: Print>(console: &mut Console<'_, '_, R>, question: Question) {
    match smallest(question.kind, question.w, question.q) {
        Ok(found) => {
            let legal = LegalDesign {
                design: found.design,
            };
            put_design(console, legal);
        }
        Err(cause) => console.put_refused(cause),
    }
}

fn main(rt: HostRuntime) {
    // A byte at a time, so that nothing behind the line is taken from the input.
    let mut input = [0u8; 1];
    let mut output = [0u8; 128];
    let mut console = Console::new(&rt, &mut input, &mut output);
    // The question is everything before the first newline, or everything there is. A character at a time, so that the line may be of any length.
    let text = console.fold_line(QuestionText::new(), QuestionText::with);
    match text.and_then(QuestionText::question) {
        Some(question) => answer(&mut console, question),
        None => console.put(b"NOT THREE NUMBERS\n"),
    }
    console.flush();
}
