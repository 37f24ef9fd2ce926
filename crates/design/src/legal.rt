// Refusals 1 to 9 of a design, in document 01's order.
ghost use Rattle.std.specs.Prelude.{◌≡◌, ◌≤◌, ◌<◌, IfOk, length};
ghost use Rattle.std.specs.List.{list_any, sum_by};
ghost use Rattle.refusal.specs.Checks.{verdict, verdict_of};
ghost use Rattle.design.specs.Limits.{most_tables};
ghost use Rattle.design.specs.Cut.{pair_at};
ghost use Rattle.design.specs.Legal.{cut_checks, design_verdict};
ghost use Rattle.design.specs.Legal as Legal;

use crate::limits::{
    LEAST_INITIAL_BITS, MOST_INITIAL_BITS, MOST_OFFSET_BITS, MOST_TABLE_BITS, MOST_TABLES,
};
use crate::{Design, LegalDesign, Pair};
use refusal::{Cause, outside};
use values::widths::{limits_of, width_verdict};

// What is asked of each table: 7 is tried on all tables before 8 is tried on any. An enum and no closures: it is a
// parameter of one definition and of its laws.
#[derive(Clone, Copy, Debug, PartialEq, Eq)]
pub enum TableRule {
    SegmentBits,
    OffsetBits,
}

impl Pair {
    // Whether a table breaks the rule: a not 1..alpha; b not from 1 to its limit, or a + b over theirs.
    fn breaks(self, rule: TableRule, alpha: u32) -> bool
        ensures { result ≡ Legal.breaks rule alpha self }
    {
        match rule {
            TableRule::SegmentBits => outside(1, alpha, self.a),
            TableRule::OffsetBits => outside(1, MOST_OFFSET_BITS, self.b)
                || MOST_TABLE_BITS < self.a as u64 + self.b as u64,
        }
    }
}

fn some_breaks(tables: &[Pair], rule: TableRule, alpha: u32) -> bool
    ensures { result ≡ list_any (Legal.breaks rule alpha) tables.now }
{
    tables.iter().any(|pair| pair.breaks(rule, alpha))
}

// The b_i in all.
fn offset_bits(tables: &[Pair]) -> u64
    requires { length tables.now ≤ most_tables }
    ensures { result ≡ sum_by (λ pair. pair.b) tables.now }
{
    tables.iter().map(|pair| u64::from(pair.b)).sum()
}

// By reference: tables are a part of the design's array, so one by value would be copied to the stack for them.
fn cut_verdict(d: &Design) -> Result<(), Cause>
    ensures { result ≡ verdict (cut_checks d.now) }
{
    if outside(LEAST_INITIAL_BITS, MOST_INITIAL_BITS, d.alpha) || d.w <= d.alpha {
        return Err(Cause::InitialBits);
    }
    if outside(1, MOST_TABLES, d.m) {
        return Err(Cause::TableCount);
    }
    let tables = &d.pairs[..d.m as usize];
    if some_breaks(tables, TableRule::SegmentBits, d.alpha) {
        return Err(Cause::SegmentBits);
    }
    if some_breaks(tables, TableRule::OffsetBits, d.alpha) {
        return Err(Cause::OffsetBits);
    }
    if offset_bits(tables) != (d.w - d.alpha) as u64 {
        return Err(Cause::CutSum);
    }
    Ok(())
}

impl Design {
    // inner: the pair of a table that is read, also of a design that is not legal. The places are literals: an array that is indexed at run time
    // is copied to the stack at each call.
    pub fn pair(self, i: u32) -> Pair
        requires { (i < self.m) × (self.m ≤ most_tables) }
        ensures { result ≡ pair_at self i }
    {
        match i {
            0 => self.pairs[0],
            1 => self.pairs[1],
            2 => self.pairs[2],
            _ => self.pairs[3],
        }
    }

    // The first refusal, if there is one. A function of its own, so that `checked` can be inlined: behind a call its design would be copied, and
    // reading it waits for the copy. It stays a call: inlined, its loops would stand beside those over words, and the compiler would specialise
    // these for fewer forms of function.
    #[inline(never)]
    fn refusal(&self) -> Result<(), Cause>
        ensures { result ≡ design_verdict self.now }
    {
        width_verdict(limits_of(self.kind), self.kind, self.w, self.q, self.g)?;
        cut_verdict(self)
    }

    // The design as a legal one, or the first refusal.
    #[inline(always)]
    pub fn checked(self) -> Result<LegalDesign, Cause>
        ensures verdict { verdict_of result ≡ design_verdict self }
        ensures same { IfOk result (λ legal. legal.design ≡ self) }
    {
        self.refusal()?;
        Ok(LegalDesign { design: self })
    }
}
