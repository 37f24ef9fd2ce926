// Lines of hexadecimal as frames of bytes, and the frame that holds a design.
#![tactic(auto)]

ghost use Rattle.std.specs.Prelude.{◌≡◌, ◌<◌, IfOk, length};
ghost use Rattle.refusal.specs.Checks.{verdict, verdict_of};
ghost use Rattle.frames.specs.Hex.{digit_value};
ghost use Rattle.frames.specs.Line.{length_fails, decoded_digits, decoded};
ghost use Rattle.frames.specs.Inputs.{digit_numbers, EvenDigits};
ghost use Rattle.frames.specs.DesignFrame.{frame_checks, frame_pair, frame_design, first_checks};
ghost use Rattle.frames.specs.DesignText.{design_line};

use design::{Design, LegalDesign, NO_PAIR, Pair};
use refusal::Cause;
use std::array;

// The longest line, in digits.
pub const LONGEST_LINE: usize = 32;

// How many bytes an array holds that frames and records are read into or put together in. The longest line's are 16, a record's 21.
pub const CAPACITY: usize = 21;

// What digits hold: their bytes with zeros behind them, and how many there are. An array and a count: fixed memory, no heap.
#[derive(Clone, Copy, Debug, PartialEq, Eq)]
pub struct Decoded {
    pub bytes: [u8; CAPACITY],
    pub count: usize,
}

// The numbers that the characters from '0' to 'F' stand for, 16 for those among them that are no digits.
const DIGITS: [u8; 23] = [
    0, 1, 2, 3, 4, 5, 6, 7, 8, 9, 16, 16, 16, 16, 16, 16, 16, 10, 11, 12, 13, 14, 15,
];

// The number that a digit stands for. 16, which no digit does, for any other character, so that callers need one test: with `Option<u8>`
// and `?` reading a record took half as long again. It is looked up: a branch on whether a digit is a letter, which comes at random, would
// often be guessed wrong. The caller lends the numbers, so that they are put into memory once for all digits.
fn digit(numbers: &[u8; 23], c: u8) -> u8
    requires { numbers.now ≡ digit_numbers }
    ensures { result ≡ digit_value c }
{
    if refusal::outside(48, 70, c as u32) {
        return 16;
    }
    numbers[(c - 48) as usize]
}

// Whether a line that is not empty is refused for its number of digits alone.
fn length_fails(digits: usize) -> bool
    ensures { result ≡ length_fails digits }
{
    digits % 2 == 1 || LONGEST_LINE < digits
}

// inner: the bytes of digits, two digits a byte, or nothing where a character is no digit or the sum is wrong. An array keeps no more bytes
// than it holds. The sum of so few bytes is far below 2^32, so it is reduced only once, at the end.
pub fn decode_digits(digits: &[u8]) -> Option<Decoded>
    requires { EvenDigits (length digits.now) }
    ensures { result ≡ decoded_digits digits.now }
{
    let numbers = DIGITS;
    let mut frame = Decoded {
        bytes: [0; CAPACITY],
        count: digits.len() / 2,
    };
    let mut sum: u32 = 0;
    for (i, pair) in digits.chunks_exact(2).enumerate() {
        let high = digit(&numbers, pair[0]);
        let low = digit(&numbers, pair[1]);
        if 16 <= high || 16 <= low {
            return None;
        }
        let byte = 16 * high + low;
        if i < CAPACITY {
            frame.bytes[i] = byte;
        }
        sum += byte as u32;
    }
    if sum % 256 != 0 {
        return None;
    }
    Some(frame)
}

// The bytes of a line, or the refusal 15. Always inlined: behind a call they are copied, and the copy waits until they are stored.
#[inline(always)]
pub fn decode(line: &[u8]) -> Result<Decoded, Cause>
    ensures { result ≡ decoded line.now }
{
    if line.is_empty() || length_fails(line.len()) {
        return Err(Cause::Line);
    }
    decode_digits(line).ok_or(Cause::Line)
}

// The refusal 16 of a line that has to hold a design. A frame too short for its m fails too: fewer than 8 bytes are never due.
fn frame_verdict(frame: &Decoded) -> Result<(), Cause>
    ensures { result ≡ verdict (frame_checks frame.now.bytes frame.now.count) }
{
    let due = 8 + 2 * (frame.bytes[6] as usize);
    if frame.bytes[0] != 1 || frame.count != due {
        return Err(Cause::Frame);
    }
    Ok(())
}

// Pair i of a frame; zeros at m and beyond, where the sum byte and the padding lie.
fn frame_pair(bytes: &[u8; CAPACITY], i: usize) -> Pair
    requires { i < 4 }
    ensures { result ≡ frame_pair bytes.now i }
{
    let m = bytes[6] as usize;
    if m <= i {
        return NO_PAIR;
    }
    Pair {
        a: bytes[7 + 2 * i] as u32,
        b: bytes[8 + 2 * i] as u32,
    }
}

// The design that a frame holds, unchecked.
pub fn frame_design(frame: &Decoded) -> Design
    ensures { result ≡ frame_design frame.now.bytes }
{
    let bytes = &frame.bytes;
    Design {
        kind: bytes[1] as u32,
        w: bytes[2] as u32,
        q: bytes[3] as u32,
        g: bytes[4] as u32,
        alpha: bytes[5] as u32,
        m: bytes[6] as u32,
        pairs: array::from_fn(|i| frame_pair(bytes, i)),
    }
}

// The design that the first frame of a set holds, by everything that is tried on it before the tables' lengths are: the refusal 16, then 1
// to 9 of the design.
pub fn first_design(frame: &Decoded) -> Result<LegalDesign, Cause>
    ensures verdict { verdict_of result ≡ verdict (first_checks frame.now.bytes frame.now.count) }
    ensures held { IfOk result (λ legal. legal.design ≡ frame_design frame.now.bytes) }
{
    frame_verdict(frame)?;
    frame_design(frame).checked()
}

// The legal design on a line that has to hold one and stands by itself, as the report's does: the refusals 15, 16, then 1 to 9.
pub fn design_line(line: &[u8]) -> Result<Design, Cause>
    ensures { result ≡ design_line line.now }
{
    let frame = decode(line)?;
    let legal = first_design(&frame)?;
    Ok(legal.design)
}
