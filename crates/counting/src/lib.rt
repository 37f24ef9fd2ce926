// How many of a set's words are nearest, only just faithful, or neither, over any tables, whoever filled them (document 02, A1).
#![tactic(auto)]

ghost use Rattle.std.specs.Prelude.{◌≡◌, ◌+◌, ◌*◌, ◌-◌, ◌^◌, ◌<◌, get_or};
ghost use Rattle.refusal.specs.Told.{told_by};
ghost use Rattle.design.specs.Cut as Cut;
ghost use Rattle.design.specs.Stored.{initial_count};
ghost use Rattle.tables.specs.Inputs.{RunOf};
ghost use Rattle.counting.specs.Count.{class_of, class_at, counts_below, count_answer, count_told};
ghost use Rattle.counting.specs.Inputs.{Few, with_class};

use design::Design;
use general::pow2;
use refusal::Cause;
use tables::runs::Run;
use tables::sums::TableSet;
use values::TableUnits;
use values::parts::Argument;
use values::rows::{Row, row_of};

// Where an input word lands: the first of these that fits. Faithful stands for faithful and not nearest.
#[derive(Clone, Copy, Debug, PartialEq, Eq)]
pub enum Class {
    Outside,
    Nearest,
    Faithful,
    Low,
    High,
}

// How many input words are in each class.
#[derive(Clone, Copy, Debug, Default, PartialEq, Eq)]
pub struct Counts {
    pub outside: u32,
    pub nearest: u32,
    pub faithful: u32,
    pub low: u32,
    pub high: u32,
}

impl Counts {
    // Counts one word more, by its class.
    fn add(&mut self, class: Class)
        requires { Few self.old }
        ensures { self.new ≡ with_class self.old class }
    {
        match class {
            Class::Outside => self.outside += 1,
            Class::Nearest => self.nearest += 1,
            Class::Faithful => self.faithful += 1,
            Class::Low => self.low += 1,
            Class::High => self.high += 1,
        }
    }
}

// The words of a set, and their function's row, which is found once.
#[derive(Clone, Copy)]
struct Words<'a> {
    set: TableSet<'a>,
    row: Row,
    ghost row_value: { row ≡ Cut.row set.tables.design },
}

impl Words<'_> {
    // The class of a word by its sum: the first that fits, in this order.
    fn class_of(self, sum: TableUnits, x: u32) -> Class
        requires { x < 2 ^ self.set.tables.design.w }
        ensures { result ≡ class_of self.entry.set.tables.design x sum.0 }
    {
        let tables = self.set.tables;
        let d = tables.design;
        if tables.sum_outside(sum) {
            return Class::Outside;
        }
        let word = tables.word_of(sum);
        let argument = Argument {
            row: self.row,
            w: d.w,
            x: pow2(d.w) + x as u64,
        };
        if argument.is_nearest(d.q, word) {
            return Class::Nearest;
        }
        if argument.is_faithful(d.q, word) {
            return Class::Faithful;
        }
        if argument.is_too_low(d.q, word) {
            return Class::Low;
        }
        Class::High
    }

    // Counts the words of a run, after those before it.
    fn count_run(self, run: Run, counts: &mut Counts)
        requires run_of { let set = self.set in
            RunOf set.tables.design set.tables.offsets.now run
            × (run.entry ≡ get_or set.initial.now (Cut.initial_word set.tables.design run.start) 0) }
        requires before_value { let set = self.set in
            counts.old ≡ counts_below run.start (class_at set.tables.design set.initial.now set.tables.offsets.now) }
        ensures { let set = self.entry.set in
            counts.new ≡ counts_below (run.start + run.size) (class_at set.tables.design set.initial.now set.tables.offsets.now) }
    {
        let tables = self.set.tables;
        for b in 0..run.size {
            let sum = tables.sum_in(run, b);
            counts.add(self.class_of(sum, run.start + b));
        }
    }

    // Counts the words of an interval, a run at a time. Its initial entry and its segments are found once.
    fn count_interval(self, interval: u32, counts: &mut Counts)
        requires interval_bound { interval < initial_count self.set.tables.design }
        requires before_value { let set = self.set in
            let d = set.tables.design in
            counts.old ≡ counts_below (interval * 2 ^ (d.w - d.alpha)) (class_at d set.initial.now set.tables.offsets.now) }
        ensures { let set = self.entry.set in
            let d = set.tables.design in
            counts.new ≡ counts_below ((interval + 1) * 2 ^ (d.w - d.alpha)) (class_at d set.initial.now set.tables.offsets.now) }
    {
        let tables = self.set.tables;
        let d = tables.design;
        let b = tables.lookups.first.b;
        let runs = pow2(d.w - d.alpha - b) as u32;
        let size = pow2(b) as u32;
        let start = interval * (runs * size);
        let entry = self.set.initial[interval as usize];
        for number in 0..runs {
            let run = tables.run_of(entry, start, start + number * size);
            self.count_run(run, counts);
        }
    }

    // The counts of all words, an interval at a time.
    fn count_all(self) -> Counts
        ensures { let set = self.entry.set in
            let d = set.tables.design in
            result ≡ counts_below (2 ^ d.w) (class_at d set.initial.now set.tables.offsets.now) }
    {
        let intervals = pow2(self.set.tables.design.alpha) as u32;
        let mut counts = Counts::default();
        for interval in 0..intervals {
            self.count_interval(interval, &mut counts);
        }
        counts
    }
}

// Refusals 1 to 10 first, then the counts.
pub fn count(d: Design, initial: &[u32], offsets: &[i32]) -> Result<Counts, Cause>
    ensures answer { result ≡ count_answer d initial.now offsets.now }
    ensures told { told_by result ≡ count_told d initial.now offsets.now }
{
    let set = TableSet::of(d, initial, offsets)?;
    let words = Words {
        set,
        row: row_of(set.tables.design.kind),
    };
    Ok(words.count_all())
}
