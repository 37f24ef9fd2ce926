// Runs: B_0 lies in the lowest bits of a word, so that 2^(b_0) words in a row differ in it alone. All but their offsets of table 0 is found
// once for them.
ghost use Rattle.std.specs.Prelude.{◌≡◌, ◌+◌, ◌<◌};
ghost use Rattle.design.specs.Cut.{offset_word};
ghost use Rattle.tables.specs.Inputs.{SameInterval, RunOf};
ghost use Rattle.tables.specs.Sum.{sum_from};

use crate::sums::OffsetTables;
use values::TableUnits;

// A word of the run's interval, the first word of the run and how many there are, their initial entry, and their Y without table 0.
#[derive(Clone, Copy, Debug, PartialEq, Eq)]
pub struct Run {
    pub near: u32,
    pub start: u32,
    pub size: u32,
    pub entry: u32,
    pub above: TableUnits,
}

impl OffsetTables<'_> {
    // inner: the run that begins at x. `near` is any word of its interval.
    #[inline(always)]
    pub fn run_of(self, entry: u32, near: u32, x: u32) -> Run
        requires { SameInterval self.design near x × (offset_word self.design 0 x ≡ 0) }
        ensures { (result.start ≡ x) × (result.entry ≡ entry) × RunOf self.entry.design self.entry.offsets.now result }
    {
        let none = TableUnits(entry as i64);
        Run {
            near,
            start: x,
            size: 1 << self.lookups.first.b,
            entry,
            above: self.add_above(none, near, x),
        }
    }

    // inner: Y of word b of the run.
    #[inline(always)]
    pub fn sum_in(self, run: Run, b: u32) -> TableUnits
        requires { RunOf self.design self.offsets.now run × (b < run.size) }
        ensures { result ≡ record { 0 = sum_from self.entry.design run.entry self.entry.offsets.now (run.start + b) } }
    {
        let x = run.start + b;
        self.add_table(0, self.lookups.first, run.above, run.near, x)
    }
}
