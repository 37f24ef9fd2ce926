// What a lookup in each offset table needs of the design, found once, so that a word costs shifts, masks and adds only.
ghost use Rattle.std.specs.Prelude.{◌≡◌, ◌+◌, ◌<◌};
ghost use Rattle.values.specs.Room.{word_bound};
ghost use Rattle.design.specs.Cut as Cut;
ghost use Rattle.design.specs.Stored.{table_start};
ghost use Rattle.tables.specs.Inputs.{Small};
ghost use Rattle.tables.specs.Lookup.{lookup_of, lookups_of, place_at};

use design::LegalDesign;

// One offset table: how far down the top a + b bits of x are shifted, how many bits of x are its offset word, where in x they begin, and
// where the table begins among the offsets.
#[derive(Clone, Copy, Debug, PartialEq, Eq)]
pub struct Lookup {
    pub shift: u32,
    pub b: u32,
    pub position: u32,
    pub start: u32,
}

// The tables by name, so that none of their numbers is read at a place that only the run tells: an array made a word twenty times slower
// (docs/SPEED.md). Those at m and beyond are not looked up.
#[derive(Clone, Copy, Debug, PartialEq, Eq)]
pub struct Lookups {
    pub first: Lookup,
    pub second: Lookup,
    pub third: Lookup,
    pub fourth: Lookup,
}

// Table i, whose bits begin at `position` and whose offsets begin at `start`. Where there is none, a table of no bits.
#[inline(always)]
fn lookup_of(legal: LegalDesign, i: u32, position: u32, start: u32) -> Lookup
    requires { (position ≡ Cut.position legal.design i) × (start ≡ table_start legal.design i) }
    ensures { result ≡ lookup_of legal.design i }
{
    let d = legal.design;
    if d.m <= i {
        return Lookup {
            shift: d.w,
            b: 0,
            position,
            start,
        };
    }
    let pair = legal.pair(i);
    Lookup {
        shift: d.w - (pair.a + pair.b),
        b: pair.b,
        position,
        start,
    }
}

// Table i + 1, whose bits and offsets begin where those of table i end.
#[inline(always)]
fn lookup_after(legal: LegalDesign, i: u32, previous: Lookup) -> Lookup
    requires { (i < 3) × (previous ≡ lookup_of legal.design i) }
    ensures { result ≡ lookup_of legal.design (i + 1) }
{
    let count = 1 << (legal.design.w - previous.shift);
    lookup_of(
        legal,
        i + 1,
        previous.position + previous.b,
        previous.start + count,
    )
}

// inner: the lookups of all tables. Always inlined, with what it calls: behind a call their numbers are read from memory for each word, and
// the check takes up to a fifth longer.
#[inline(always)]
pub fn lookups_of(legal: LegalDesign) -> Lookups
    ensures { result ≡ lookups_of legal.design }
{
    let first = lookup_of(legal, 0, 0, 0);
    let second = lookup_after(legal, 0, first);
    let third = lookup_after(legal, 1, second);
    let fourth = lookup_after(legal, 2, third);
    Lookups {
        first,
        second,
        third,
        fourth,
    }
}

// Where x's offset lies among all offsets. The top a + b bits of x are A·2^b and b bits more, which make room for B. A is told by
// `near`, any word of x's interval, so that it is found once where many words of one interval are looked up.
pub(crate) fn place_of(lookup: Lookup, near: u32, x: u32) -> u32
    requires small { Small lookup }
    requires near_lt_word_bound { (near < word_bound) × (x < word_bound) }
    ensures { result ≡ place_at lookup near x }
{
    let size = 1 << lookup.b;
    let top = near >> lookup.shift;
    let low = x >> lookup.position;
    lookup.start + (top - top % size + low % size)
}
