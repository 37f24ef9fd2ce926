// Segments, and the bounds Hi and Lo of the slope on each.
ghost use Rattle.std.specs.Prelude.{◌≡◌, ◌+◌, ◌*◌, ◌^◌, ◌<◌};
ghost use Rattle.values.specs.Slopes.{segment_start, segment_end, largest_slopes};
ghost use Rattle.values.specs.Slopes as Slopes;
ghost use Rattle.values.specs.Inputs.{FloorInput, SegmentInput, SlopeInput};

use crate::parts::Argument;
use crate::rows::Row;
use general::pow2;

// inner: the first X of the segment that a value of the top a bits of x names.
pub fn segment_start(w: u32, a: u32, segment: u64) -> u64
    requires { SegmentInput w a segment }
    ensures { result ≡ segment_start w a segment }
{
    pow2(w) + segment * pow2(w - a)
}

// inner: the last one.
pub fn segment_end(w: u32, a: u32, segment: u64) -> u64
    requires { SegmentInput w a segment }
    ensures { result ≡ segment_end w a segment }
{
    segment_start(w, a, segment) + pow2(w - a) - 1
}

impl Argument {
    // Hi, at the segment's start, from the exact value there rounded up: L, and one more where it is not that whole number.
    fn hi(self, p: u32) -> u64
        requires { FloorInput self.row self.w p self.x }
        ensures { result ≡ Slopes.hi self.row self.w p self.x }
    {
        let floor = self.floor_and_whole(p);
        let more = if floor.whole { 0 } else { 1 };
        (floor.units.count() + more) * 65536 / (self.row.k as u64 * self.x) + 1
    }

    // Lo, at the segment's end.
    fn lo(self, p: u32) -> u64
        requires { FloorInput self.row self.w p self.x }
        ensures { result ≡ Slopes.lo self.row self.w p self.x }
    {
        self.floor_value(p).count() * 65536 / (self.row.k as u64 * self.x)
    }
}

// Hi and Lo of a segment: 65536 times the slope on it is at most Hi and at least Lo.
#[derive(Clone, Copy)]
pub struct SlopeBounds {
    pub hi: u64,
    pub lo: u64,
}

// The largest Hi - Lo and the largest Hi + Lo over the segments of a bits.
#[derive(Clone, Copy)]
pub struct LargestSlopes {
    pub spread: u64,
    pub sum: u64,
}

// The segments of the top a bits of an input word of w bits, for a function's row and table entries of p fraction bits.
#[derive(Clone, Copy)]
pub struct Segments {
    pub row: Row,
    pub w: u32,
    pub p: u32,
    pub a: u32,
    ghost fit: { SlopeInput row w p a },
}

impl Segments {
    // inner: the bounds of the slope on the segment that a value of the top a bits of x names.
    pub fn bounds_of(self, segment: u64) -> SlopeBounds
        requires { segment < 2 ^ self.a }
        ensures { result ≡ record {
          hi = Slopes.hi self.row self.w self.p (segment_start self.w self.a segment);
          lo = Slopes.lo self.row self.w self.p (segment_end self.w self.a segment);
        } }
    {
        let start = Argument {
            row: self.row,
            w: self.w,
            x: segment_start(self.w, self.a, segment),
        };
        let end = Argument {
            row: self.row,
            w: self.w,
            x: segment_end(self.w, self.a, segment),
        };
        SlopeBounds {
            hi: start.hi(self.p),
            lo: end.lo(self.p),
        }
    }

    // inner: both largest, in one pass; two floor values a segment.
    pub fn largest(self) -> LargestSlopes
        ensures { result ≡ largest_slopes self.row self.w self.p self.a }
    {
        let mut spread = 0u64;
        let mut sum = 0u64;
        for segment in 0..pow2(self.a) {
            let here = self.bounds_of(segment);
            spread = spread.max(here.hi - here.lo);
            sum = sum.max(here.hi + here.lo);
        }
        LargestSlopes { spread, sum }
    }
}
