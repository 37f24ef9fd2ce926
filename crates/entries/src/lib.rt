// What the fill writes, entry by entry: document 01, "Filling".
#![tactic(auto)]

ghost use Rattle.std.specs.Prelude.{◌≡◌, ◌*◌, ◌^◌, ◌≤◌, ◌<◌, pos, nat_abs};
ghost use Rattle.values.specs.Room.{widest_word, floor_bound};
ghost use Rattle.values.specs.Inputs.{InRange};
ghost use Rattle.values.specs.Slopes.{slope_sum};
ghost use Rattle.design.specs.Stored.{initial_count};
ghost use Rattle.design.specs.Cut as Cut;
ghost use Rattle.entries.specs.Entries.{value_at, initial_at, odd_number, magnitude, offset_of};
ghost use Rattle.entries.specs.Signs.{side_of, sign_of, entry_by};
ghost use Rattle.entries.specs.Meaning.{Meaning};
ghost use Rattle.entries.specs.Inputs.{WordInput, OffsetInput, reach_bound, offset_bound};

use design::LegalDesign;
use general::pow2;
use values::parts::Argument;
use values::rows::Row;
use values::slopes::{Segments, segment_end, segment_start};

// L(X), for the kind and widths of a legal design.
fn value_at(legal: LegalDesign, row: Row, x: u64) -> u64
    requires { (row ≡ Cut.row legal.design) × InRange legal.design.w x }
    ensures { (result ≡ value_at legal.design x) × (result < floor_bound) }
{
    let d = legal.design;
    let argument = Argument { row, w: d.w, x };
    argument.floor_value(d.q + d.g).count()
}

// inner: the initial entry of A = word.
pub fn initial_at(legal: LegalDesign, row: Row, word: u64) -> u32
    requires { (row ≡ Cut.row legal.design) × (word < initial_count legal.design) }
    ensures { result ≡ initial_at legal.design word }
{
    let d = legal.design;
    let start = segment_start(d.w, d.alpha, word);
    let end = segment_end(d.w, d.alpha, word);
    let values = value_at(legal, row, start) + value_at(legal, row, end);
    ((values + 1 + d.m as u64) / 2 + pow2(d.g - 1)) as u32
}

// inner: Hi + Lo of the segment that a value of the top a bits of x names.
pub fn slope_sum(segments: Segments, segment: u64) -> u64
    requires { segment < 2 ^ segments.a }
    ensures { result ≡ slope_sum segments.row segments.w segments.p segments.a segment }
{
    let bounds = segments.bounds_of(segment);
    bounds.hi + bounds.lo
}

// From here to the end of the file numbers are passed one by one, and not in a struct: `.ci/straight` reads in the compiled code that the
// way to an offset goes over whole locals, and a struct's field is none.

// j, an odd number of either sign.
fn odd_number(b: u32, word: u64) -> i32
    requires { WordInput b word }
    ensures { result ≡ odd_number b word }
{
    (2 * word + 1) as i32 - pow2(b) as i32
}

// B's top bit: 1 where j is above 0, 0 where it is below.
fn top_bit(b: u32, word: u64) -> u64
    requires { WordInput b word }
    ensures { result ≡ side_of (odd_number b word) }
{
    word >> (b - 1)
}

// |j|: j times 1 above 0, times -1 below.
fn absolute(b: u32, word: u64) -> u64
    requires { WordInput b word }
    ensures { result ≡ nat_abs (odd_number b word) }
{
    let j = odd_number(b, word);
    let factor = 2 * top_bit(b, word) as i32 - 1;
    (factor * j) as u64
}

// s, 0 where j has the function's sign: where the top bit is 1 and the function rises, or it is 0 and the function falls.
fn sign_of(rising: bool, b: u32, word: u64) -> u64
    requires { WordInput b word }
    ensures { result ≡ sign_of rising (odd_number b word) }
{
    let top = top_bit(b, word);
    top ^ rising as u64
}

// T for sign 0, -1 - T for sign 1.
fn with_sign(sign: u64, t: u64) -> i32
    requires { (sign < 2) × (t ≤ offset_bound) }
    ensures { result ≡ entry_by sign t }
{
    let s = sign as i32;
    (1 - 2 * s) * t as i32 - s
}

// inner: T, from Hi + Lo of a segment, the size of j and p of the table.
pub fn magnitude_of(slopes: u64, size: u64, p: u32) -> u64
    requires { (slopes * size * 2 ^ p ≤ reach_bound) × (p ≤ widest_word) }
    ensures { result ≡ magnitude slopes p (pos size) }
{
    slopes * size * pow2(p) / (1 << 18)
}

// inner: the offset of B = word, from Hi + Lo of its segment, b and p of its table and the function's sign; by arithmetic, with no choice.
pub fn offset_of(slopes: u64, b: u32, p: u32, rising: bool, word: u64) -> i32
    requires offset_input { OffsetInput slopes b p }
    requires word_bound { word < 2 ^ b }
    ensures value { result ≡ offset_of slopes b p rising word }
    ensures meaning { Meaning slopes b p rising word result }
{
    let size = absolute(b, word);
    let t = magnitude_of(slopes, size, p);
    with_sign(sign_of(rising, b, word), t)
}
