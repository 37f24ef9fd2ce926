// Budget and limits of a legal design, and how many offsets it has.
ghost use Rattle.std.specs.Prelude.{◌≡◌, ◌≤◌, ◌<◌};
ghost use Rattle.values.specs.Room.{finest_unit};
ghost use Rattle.values.specs.Slopes.{largest_slopes};
ghost use Rattle.design.specs.Stored.{offset_count, offset_total};
ghost use Rattle.design.specs.Cut.{pair_at};
ghost use Rattle.design.specs.Cut as Cut;
ghost use Rattle.design.specs.Budget.{table_budget, budget, limit};

use crate::{Design, LegalDesign, Pair};
use general::pow2;
use values::rows::row_of;
use values::slopes::{LargestSlopes, Segments};

impl Design {
    // inner: 2^(g+17), also of a design whose tables are not chosen yet.
    pub fn limit(self) -> u64
        requires { self.g ≤ finest_unit }
        ensures { result ≡ limit self }
    {
        pow2(self.g + 17)
    }
}

impl LegalDesign {
    // inner: the pair of a table that is read.
    pub fn pair(self, i: u32) -> Pair
        requires { i < self.design.m }
        ensures { result ≡ pair_at self.design i }
    {
        self.design.pair(i)
    }

    // inner: the largest Hi - Lo and the largest Hi + Lo over the segments of table i.
    pub fn table_slopes(self, i: u32) -> LargestSlopes
        requires { i < self.design.m }
        ensures { result ≡ largest_slopes (Cut.row self.design) self.design.w (Cut.fraction_bits self.design) (Cut.a_of self.design i) }
    {
        let pair = self.pair(i);
        let d = self.design;
        let segments = Segments {
            row: row_of(d.kind),
            w: d.w,
            p: d.q + d.g,
            a: pair.a,
        };
        segments.largest()
    }

    // D_i times the largest Hi - Lo, for table i, whose b_i bits begin at p_i.
    fn table_budget(self, i: u32, position: u32) -> u64
        requires { (i < self.design.m) × (position ≡ Cut.position self.design i) }
        ensures { result ≡ table_budget self.design i }
    {
        let pair = self.pair(i);
        let slopes = self.table_slopes(i);
        (pow2(pair.b) - 1) * pow2(position) * slopes.spread
    }

    // inner: the budget. By the number of the table, as D_i and p_i go.
    pub fn budget(self) -> u64
        ensures { result ≡ budget self.design }
    {
        let m = self.design.m;
        let mut sum = 0;
        let mut position = 0;
        for i in 0..m {
            sum += self.table_budget(i, position);
            position += self.pair(i).b;
        }
        sum + (m as u64 + 2) * (1 << 17)
    }

    // inner: the limit on sums, 2^(P+2).
    pub fn sum_limit(self) -> u64
        ensures { result ≡ Cut.sum_limit self.design }
    {
        pow2(self.design.q + self.design.g + 2)
    }

    // inner: how many offsets table i stores.
    pub fn offset_count(self, i: u32) -> u64
        requires { i < self.design.m }
        ensures { result ≡ offset_count self.design i }
    {
        let pair = self.pair(i);
        pow2(pair.a + pair.b)
    }

    // inner: the number of offsets, all tables together. By the number of the table: a `sum` of counts would
    // need their bound as a `requires`.
    pub fn offset_total(self) -> u64
        ensures { result ≡ offset_total self.design }
    {
        let m = self.design.m;
        let mut entries = 0;
        for i in 0..m {
            entries += self.offset_count(i);
        }
        entries
    }
}
