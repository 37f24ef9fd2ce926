// The size of a design in bits, as gate arrays count it: each table at its own width. Document 02, A6.
#![tactic(auto)]

ghost use Rattle.std.specs.Prelude.{◌≡◌, ◌+◌, ◌*◌, ◌^◌, ◌≤◌, ◌<◌};
ghost use Rattle.refusal.specs.Told.{told_by};
ghost use Rattle.values.specs.Room.{finest_unit};
ghost use Rattle.design.specs.Limits.{most_initial_bits};
ghost use Rattle.design.specs.Cut as Cut;
ghost use Rattle.entries.specs.Inputs.{OffsetInput};
ghost use Rattle.sizing.specs.Width.{offset_bits};
ghost use Rattle.sizing.specs.Size.{table_size, size_answer, size_told};
ghost use Rattle.sizing.specs.Size as Size;
ghost use Rattle.sizing.specs.Widest.{widest_offset, bits_for};

use design::{Design, LegalDesign};
use entries::magnitude_of;
use general::{digit_count, pow2};
use refusal::Cause;

// inner: the bits of each offset of a table, by the largest Hi + Lo of its segments, its b and its p. The widest offset is T or -1 - T of
// the largest |j|; either takes T's digits and one bit for the sign. One by one: a search has the three in different places.
pub fn bits_of(slopes: u64, b: u32, p: u32) -> u32
    requires { OffsetInput slopes b p }
    ensures { result ≡ bits_for (widest_offset slopes b p) }
{
    let t = magnitude_of(slopes, pow2(b) - 1, p);
    digit_count(t) + 1
}

// inner: the size of 2^alpha initial entries of P + 2 bits; P = fraction.
pub fn initial_size(alpha: u32, fraction: u32) -> u64
    requires { (alpha ≤ most_initial_bits) × (fraction ≤ finest_unit) }
    ensures { result ≡ 2 ^ alpha * (fraction + 2) }
{
    pow2(alpha) * (fraction as u64 + 2)
}

// The bits of each offset of table i, whose b_i bits begin at p_i.
fn offset_bits(legal: LegalDesign, i: u32, position: u32) -> u32
    requires { (i < legal.design.m) × (position ≡ Cut.position legal.design i) }
    ensures { result ≡ offset_bits legal.design i }
{
    let pair = legal.pair(i);
    let slopes = legal.table_slopes(i);
    bits_of(slopes.sum, pair.b, position)
}

// The size of table i.
fn table_size(legal: LegalDesign, i: u32, position: u32) -> u64
    requires { (i < legal.design.m) × (position ≡ Cut.position legal.design i) }
    ensures { result ≡ table_size legal.design i }
{
    legal.offset_count(i) * offset_bits(legal, i, position) as u64
}

// inner: the size of a legal design, admitted or not. By the number of the table, as p_i goes.
pub fn size_of(legal: LegalDesign) -> u64
    ensures { result ≡ Size.size legal.design }
{
    let d = legal.design;
    let mut bits = initial_size(d.alpha, d.q + d.g);
    let mut position = 0;
    for i in 0..d.m {
        bits += table_size(legal, i, position);
        position += legal.pair(i).b;
    }
    bits
}

// The size in bits of an admitted design, or the refusal: 1 to 9, then 11.
pub fn size(d: Design) -> Result<u64, Cause>
    ensures answer { result ≡ size_answer d }
    ensures told { told_by result ≡ size_told d }
{
    let legal = d.checked()?;
    if d.limit() <= legal.budget() {
        return Err(Cause::NotAdmitted);
    }
    Ok(size_of(legal))
}
