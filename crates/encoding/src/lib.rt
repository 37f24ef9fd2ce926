// Frames and lines as they are written: numbers as bytes, the sum byte, hexadecimal digits, and the frame that holds a design.
#![tactic(auto)]

ghost use Rattle.std.specs.Prelude.{◌≡◌, [], ◌∷◌, ◌++◌, ◌+◌, ◌≤◌, ◌<◌, length};
ghost use Rattle.general.specs.Lists.{over};
ghost use Rattle.encoding.specs.Bytes.{big_endian};
ghost use Rattle.encoding.specs.Encode.{digit_of, hex_of, line_of};
ghost use Rattle.encoding.specs.DesignBytes.{design_bytes};
ghost use Rattle.encoding.specs.Inputs.{held, WidthInput, PutInput};

pub mod numbers;

use design::LegalDesign;
use frames::CAPACITY;

// A frame while it is put together: its first `count` bytes are there. An array with a count and no `Vec`: nothing here allocates.
// It is no `Decoded`, which has zeros behind its bytes.
#[derive(Clone, Copy)]
pub struct Frame {
    pub bytes: [u8; CAPACITY],
    pub count: usize,
}

impl Frame {
    // inner: a frame that has its first byte. What stands behind that does not count.
    pub fn of_kind(kind: u8) -> Frame
        ensures result_value { held result ≡ kind ∷ [] }
        ensures count_value { result.count ≡ 1 }
    {
        let mut bytes = [0; CAPACITY];
        bytes[0] = kind;
        Frame { bytes, count: 1 }
    }

    // inner: the frame with a number of `width` bytes behind what it has. Byte by byte: with `copy_from_slice` of the last of `to_be_bytes`
    // putting a line took half as long again.
    pub fn with(mut self, width: usize, number: u32) -> Frame
        requires { WidthInput self.count width }
        ensures result_value { held result ≡ held self ++ big_endian width number }
        ensures count_value { result.count ≡ self.count + width }
    {
        let mut at = self.count;
        for left in (0..width).rev() {
            self.bytes[at] = ((number >> (8 * left)) % 256) as u8;
            at += 1;
        }
        self.count = at;
        self
    }
}

// The frame 01 of a legal design before its pairs. Each number of a legal design fits a byte.
fn design_head(legal: LegalDesign) -> Frame
    ensures result_value { let d = legal.design in held result ≡ 1 ∷ d.kind ∷ d.w ∷ d.q ∷ d.g ∷ d.alpha ∷ d.m ∷ [] }
    ensures count_value { result.count ≡ 7 }
{
    let d = legal.design;
    Frame::of_kind(1)
        .with(1, d.kind)
        .with(1, d.w)
        .with(1, d.q)
        .with(1, d.g)
        .with(1, d.alpha)
        .with(1, d.m)
}

// inner: the frame 01 of a legal design.
pub fn design_frame(legal: LegalDesign) -> Frame
    ensures result_value { held result ≡ design_bytes legal.design }
    ensures count_value { result.count ≡ length (design_bytes legal.design) }
{
    let mut frame = design_head(legal);
    // by the number of the table, as the promise goes
    for i in 0..legal.design.m {
        let pair = legal.pair(i);
        frame = frame.with(1, pair.a).with(1, pair.b);
    }
    frame
}

// The digit of a number. `char::from_digit` gives small letters.
fn digit_of(n: u8) -> u8
    requires { n < 16 }
    ensures { result ≡ digit_of n }
{
    if n < 10 {
        return 48 + n;
    }
    55 + n
}

// The two digits of a byte, from their place in the line on.
fn put_byte(byte: u8, at: usize, line: &mut [u8])
    requires { at + 2 ≤ length line.old }
    ensures { line.new ≡ over line.old at (hex_of (byte ∷ [])) }
{
    line[at] = digit_of(byte / 16);
    line[at + 1] = digit_of(byte % 16);
}

// inner: puts the digits of bytes and of the byte that makes their sum 0 at the start of a buffer. The sum of so few bytes is far below
// 2^32, so it is reduced only once, at the end. By the place, as a byte takes two places of the line.
pub fn put_bytes(bytes: &[u8], line: &mut [u8])
    requires { PutInput (length bytes.now) (length line.old) }
    ensures { line.new ≡ over line.old 0 (line_of bytes.now) }
{
    let mut sum: u32 = 0;
    for (i, byte) in bytes.iter().enumerate() {
        put_byte(*byte, 2 * i, line);
        sum += *byte as u32;
    }
    put_byte(((256 - sum % 256) % 256) as u8, 2 * bytes.len(), line);
}

// inner: puts the line of a frame, which is given without its sum byte, at the start of the line buffer.
pub fn put_line(frame: Frame, line: &mut [u8])
    requires { PutInput frame.count (length line.old) }
    ensures { line.new ≡ over line.old 0 (line_of (held frame)) }
{
    put_bytes(&frame.bytes[..frame.count], line);
}
