// Goes through the examples of document 01 that are not starred, and those of document 02's smallest cut, one line each. What each
// should come to is in the file stdout beside src/.
#![tactic(auto)]

use checking::check;
use console::{BLOCK, Console};
use design::{Design, NO_PAIR, Pair};
use filling::fill;
use refusal::Cause;
use searching::smallest;
use set_console::answers::put_checked;
use set_console::set_lines::put_line;

// A design of one table, of kind 0 with q 8 and g 4.
fn of_one_table(w: u32, alpha: u32, a: u32, b: u32) -> Design {
    let first = Pair { a, b };
    Design {
        kind: 0,
        w,
        q: 8,
        g: 4,
        alpha,
        m: 1,
        pairs: [first, NO_PAIR, NO_PAIR, NO_PAIR],
    }
}

fn g() -> Design {
    of_one_table(8, 5, 3, 3)
}

// Writes a text at once: what is written so far stands where the program is stopped.
fn show(console: &mut Console<impl Print>, text: &[u8]) {
    console.put(text);
    console.flush();
}

// A line of G's set, if there is one.
fn show_line(
    console: &mut Console<impl Print>,
    label: &[u8],
    initial: &[u32],
    offsets: &[i32],
    number: usize,
) {
    show(console, label);
    if !put_line(console, g(), initial, offsets, number) {
        console.put(b"none\n");
    }
    console.flush();
}

// The check of a filled set with its initial entry 0 changed.
fn check_changed(
    console: &mut Console<impl Print>,
    label: &[u8],
    filled: [u32; 32],
    offsets: &[i32],
    first: u32,
) {
    let mut initial = filled;
    initial[0] = first;
    show(console, label);
    put_checked(console, check(g(), &initial, offsets));
    console.flush();
}

fn show_lines(console: &mut Console<impl Print>, initial: &[u32], offsets: &[i32]) {
    show_line(console, b"G's line 1: ", initial, offsets, 1);
    show_line(console, b"G's line 33: ", initial, offsets, 33);
    show_line(console, b"G's line 40: ", initial, offsets, 40);
    show_line(console, b"G's line 97: ", initial, offsets, 97);
    show_line(console, b"G's line 98: ", initial, offsets, 98);
}

// G is admitted; if it were not, the lines would be of zeros.
fn filled_set(console: &mut Console<impl Print>) {
    let mut initial = [0u32; 32];
    let mut offsets = [0i32; 64];
    let _ = fill(g(), &mut initial, &mut offsets);
    check_changed(
        console,
        b"G, initial 0 changed to 4046: ",
        initial,
        &offsets,
        4046,
    );
    check_changed(
        console,
        b"G, initial 0 changed to 4045: ",
        initial,
        &offsets,
        4045,
    );
    show_lines(console, &initial, &offsets);
}

// Whether something is refused.
fn show_verdict(console: &mut Console<impl Print>, verdict: Result<(), Cause>) {
    match verdict {
        Ok(()) => console.put(b"passes\n"),
        Err(cause) => console.put_refused(cause),
    }
    console.flush();
}

// Whether a value is refused.
fn show_value(
    console: &mut Console<impl Print>,
    label: &[u8],
    kind: u32,
    w: u32,
    q: u32,
    g: u32,
    x: u32,
) {
    show(console, label);
    show_verdict(console, values::value(kind, w, q, g, x).map(|_| ()));
}

// Whether a design of 16 bits, of which 8 are initial, is refused.
fn show_legal(console: &mut Console<impl Print>, label: &[u8], a: u32, b: u32) {
    show(console, label);
    show_verdict(
        console,
        design::budget(of_one_table(16, 8, a, b)).map(|_| ()),
    );
}

fn refusals(console: &mut Console<impl Print>) {
    show_value(console, b"q 16, g 4: ", 0, 8, 16, 4, 0);
    show_value(console, b"q 16, g 5: ", 0, 8, 16, 5, 0);
    show_legal(console, b"a_0 + b_0 = 12: ", 4, 8);
    show_legal(console, b"a_0 + b_0 = 13: ", 5, 8);
    show_value(console, b"kind 5, w 5: ", 5, 5, 8, 4, 0);
    show_value(console, b"w 8, x 255: ", 0, 8, 8, 4, 255);
    show_value(console, b"w 8, x 256: ", 0, 8, 8, 4, 256);
}

fn show_number(console: &mut Console<impl Print>, label: &[u8], n: u64) {
    show(console, label);
    console.put_decimal(n);
    console.flush();
}

fn show_smallest(console: &mut Console<impl Print>, label: &[u8], kind: u32, w: u32, q: u32) {
    let found = smallest(kind, w, q);
    show(console, label);
    match found {
        Ok(best) => {
            let d = best.design;
            show_number(console, b"bits ", best.bits);
            show_number(console, b", g ", u64::from(d.g));
            show_number(console, b", alpha ", u64::from(d.alpha));
            show_number(console, b", m ", u64::from(d.m));
            console.put(b"\n");
        }
        Err(cause) => console.put_refused(cause),
    }
    console.flush();
}

fn smallest_designs(console: &mut Console<impl Print>) {
    show_smallest(console, b"the smallest of kind 0, w 8, q 8: ", 0, 8, 8);
    show_smallest(console, b"the smallest of kind 1, w 8, q 8: ", 1, 8, 8);
    show_smallest(console, b"the smallest of kind 0, w 16, q 16: ", 0, 16, 16);
    show_smallest(console, b"the smallest of kind 0, w 6, q 12: ", 0, 6, 12);
}

fn main(rt: HostRuntime) {
    let mut output = [0u8; BLOCK];
    // Nothing is read.
    let mut console = Console::new(&rt, &mut [], &mut output);
    filled_set(&mut console);
    refusals(&mut console);
    smallest_designs(&mut console);
}
