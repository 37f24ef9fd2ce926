// The check of any tables, whoever filled them: faithful, or the lowest word that is not.
#![tactic(auto)]

ghost use Rattle.std.specs.Prelude.{◌≡◌, ◌^◌, get_or};
ghost use Rattle.refusal.specs.Told.{told_by};
ghost use Rattle.design.specs.Cut as Cut;
ghost use Rattle.design.specs.Cut.{initial_word};
ghost use Rattle.tables.specs.Inputs.{SameInterval};
ghost use Rattle.checking.specs.Check.{faithful_at, finding_below, check_answer, check_told};

use design::Design;
use general::pow2;
use refusal::Cause;
use tables::sums::TableSet;
use values::parts::Argument;
use values::rows::{Row, row_of};

// What the words of one interval share, found once for them: their initial entry, and their segments, which `near`, any of them, tells.
#[derive(Clone, Copy)]
struct Interval<'a> {
    set: TableSet<'a>,
    row: Row,
    near: u32,
    entry: u32,
    ghost row_value: { row ≡ Cut.row set.tables.design },
    ghost entry_value: { entry ≡ get_or set.initial.now (initial_word set.tables.design near) 0 },
}

impl Interval<'_> {
    // A word whose sum is refused counts as unfaithful. Always inlined: a call for each word would copy what the words share.
    #[inline(always)]
    fn is_faithful(self, x: u32) -> bool
        requires { SameInterval self.set.tables.design self.near x }
        ensures { let set = self.entry.set in result ≡ faithful_at set.tables.design set.initial.now set.tables.offsets.now x }
    {
        let tables = self.set.tables;
        let d = tables.design;
        let sum = tables.sum_from(self.entry, self.near, x);
        if tables.sum_outside(sum) {
            return false;
        }
        let argument = Argument {
            row: self.row,
            w: d.w,
            x: pow2(d.w) + x as u64,
        };
        argument.is_faithful(d.q, tables.word_of(sum))
    }
}

// From 0 upwards, over each interval A and the rest of x, to the lowest unfaithful word.
fn search(set: TableSet) -> Option<u32>
    ensures { let set' = set.entry in
        let d = set'.tables.design in
        result ≡ finding_below (2 ^ d.w) (faithful_at d set'.initial.now set'.tables.offsets.now) }
{
    let d = set.tables.design;
    let row = row_of(d.kind);
    let intervals = pow2(d.alpha) as u32;
    let rests = pow2(d.w - d.alpha) as u32;
    let mut lowest = None;
    'words: for number in 0..intervals {
        let start = number * rests;
        let interval = Interval {
            set,
            row,
            near: start,
            entry: set.initial[number as usize],
        };
        for rest in 0..rests {
            let x = start + rest;
            if !interval.is_faithful(x) {
                lowest = Some(x);
                break 'words;
            }
        }
    }
    lowest
}

// Refusals 1 to 10 first, then the search: the lowest unfaithful word, or none where all are faithful.
pub fn check(d: Design, initial: &[u32], offsets: &[i32]) -> Result<Option<u32>, Cause>
    ensures answer { result ≡ check_answer d initial.now offsets.now }
    ensures told { told_by result ≡ check_told d initial.now offsets.now }
{
    let set = TableSet::of(d, initial, offsets)?;
    Ok(search(set))
}
