// The sum Y of an input word over any tables, whoever filled them, and the word that it comes to.
ghost use Rattle.std.specs.Prelude.{◌≡◌, false, ◌||◌, T, ◌+◌, ◌/◌, ◌^◌, ◌≤◌, ◌<◌, length, get_or, pos, nat_abs, ◌+ℤ◌, IfOk};
ghost use Rattle.std.specs.Int.Signed.{mag, non_neg, lt_z, le_z};
ghost use Rattle.values.specs.Room.{finest_unit, entry_bound};
ghost use Rattle.refusal.specs.Checks.{verdict, verdict_of};
ghost use Rattle.design.specs.Stored.{initial_count, offset_total};
ghost use Rattle.design.specs.Legal.{Legal};
ghost use Rattle.tables.specs.Inputs.{SameInterval, sum_above};
ghost use Rattle.tables.specs.Lookup.{lookups_of, lookup_of};
ghost use Rattle.tables.specs.Set.{set_checks};
ghost use Rattle.tables.specs.Sum.{offset_for, sum_from, sum_at, sum_outside, word_of};

use crate::checked_set;
use crate::lookups::{Lookup, Lookups, lookups_of, place_of};
use design::{Design, LegalDesign};
use general::pow2;
use refusal::Cause;
use values::{OutputUnits, TableUnits};

// A legal design with its lookups, and offsets that are enough for its tables: what a sum needs once its initial entry is known.
// Its methods are always inlined: a call for each word would copy the struct for each word, which takes three times as long.
#[derive(Clone, Copy, Debug)]
pub struct OffsetTables<'a> {
    pub design: Design,
    pub lookups: Lookups,
    pub offsets: &'a [i32],
    pub ghost legal: { Legal design },
    pub ghost lookups_value: { lookups ≡ lookups_of design },
    pub ghost offsets_long: { offset_total design ≤ length offsets.now },
}

// A whole set: the offset tables, and initial entries that are enough for their design.
#[derive(Clone, Copy, Debug)]
pub struct TableSet<'a> {
    pub tables: OffsetTables<'a>,
    pub initial: &'a [u32],
    pub ghost initial_long: { initial_count tables.design ≤ length initial.now },
}

// Adds an offset, by its place among all offsets.
fn add_offset(sum: TableUnits, offsets: &[i32], place: u32) -> TableUnits
    requires { (place < length offsets.now) × (mag sum.0 ≤ 2 ^ 40) }
    ensures { (result ≡ record { 0 = sum.0 +ℤ get_or offsets.now place (pos 0) }) × (mag result.0 ≤ mag sum.0 + 2 ^ 32) }
{
    let offset = offsets[place as usize];
    TableUnits(sum.0 + offset as i64)
}

// Whether Y is out of range, not 0 ≤ Y < limit. By numbers, and by no design: one that is handed on for each word is copied for each word, and
// reading it waits for the copy.
#[inline(always)]
fn is_outside(limit: u64, sum: TableUnits) -> bool
    requires { limit ≤ entry_bound }
    ensures { result ≡ (lt_z sum.0 (pos 0) || le_z (pos limit) sum.0) }
{
    let limit = limit as i64;
    sum.0 < 0 || limit <= sum.0
}

// floor(Y / 2^g): the only place where table units become output units. By numbers, for the same reason.
#[inline(always)]
fn divided(g: u32, sum: TableUnits) -> OutputUnits
    requires { (g ≤ finest_unit) × T (non_neg sum.0) × (nat_abs sum.0 < entry_bound) }
    ensures { result ≡ record { 0 = nat_abs sum.0 / 2 ^ g } }
{
    let word = (sum.count() >> g) as u32;
    OutputUnits(word)
}

// inner: whether Y is out of range, not 0 ≤ Y < 2^(P+2).
#[inline(always)]
pub fn sum_outside(legal: LegalDesign, sum: TableUnits) -> bool
    ensures { result ≡ sum_outside legal.design sum.0 }
{
    is_outside(legal.sum_limit(), sum)
}

// inner: the word, floor(Y / 2^g).
#[inline(always)]
pub fn word_of(legal: LegalDesign, sum: TableUnits) -> OutputUnits
    requires { sum_outside legal.design sum.0 ≡ false }
    ensures { result ≡ record { 0 = word_of legal.design sum.0 } }
{
    divided(legal.design.g, sum)
}

impl OffsetTables<'_> {
    // Adds the offset of table i, whose lookup this is; `i` is there for the promise only. `near` is any word of x's interval. Both stay numbers,
    // since `.ci/straight` follows whole locals.
    #[inline(always)]
    pub(crate) fn add_table(
        self,
        i: u32,
        lookup: Lookup,
        sum: TableUnits,
        near: u32,
        x: u32,
    ) -> TableUnits
        requires lookup_value { (lookup ≡ lookup_of self.design i) × SameInterval self.design near x }
        requires i_lt_m { (i < self.design.m) × (mag sum.0 ≤ 2 ^ 40) }
        ensures { (result ≡ record { 0 = sum.0 +ℤ offset_for self.entry.design self.entry.offsets.now x i })
            × (mag result.0 ≤ mag sum.0 + 2 ^ 32) }
    {
        add_offset(sum, self.offsets, place_of(lookup, near, x))
    }

    // Adds the offsets of the tables from 1 on. `near` is any word of x's interval.
    #[inline(always)]
    pub(crate) fn add_above(self, sum: TableUnits, near: u32, x: u32) -> TableUnits
        requires { SameInterval self.design near x × (mag sum.0 ≤ 2 ^ 34) }
        ensures { (result ≡ record { 0 = sum_above self.entry.design sum.0 self.entry.offsets.now x }) × (mag result.0 ≤ 2 ^ 40) }
    {
        let m = self.design.m;
        if m == 1 {
            return sum;
        }
        let one = self.add_table(1, self.lookups.second, sum, near, x);
        if m == 2 {
            return one;
        }
        let two = self.add_table(2, self.lookups.third, one, near, x);
        if m == 3 {
            return two;
        }
        self.add_table(3, self.lookups.fourth, two, near, x)
    }

    // inner: Y, from x's initial entry on: m lookups, shifts and adds. `near` is any word of x's interval.
    #[inline(always)]
    pub fn sum_from(self, entry: u32, near: u32, x: u32) -> TableUnits
        requires { SameInterval self.design near x }
        ensures { result ≡ record { 0 = sum_from self.entry.design entry self.entry.offsets.now x } }
    {
        let none = TableUnits(entry as i64);
        let first = self.add_table(0, self.lookups.first, none, near, x);
        self.add_above(first, near, x)
    }

    // inner: the design, with the fact that it is legal.
    #[inline(always)]
    pub fn legal(self) -> LegalDesign
        ensures { result.design ≡ self.entry.design }
    {
        LegalDesign {
            design: self.design,
        }
    }

    // inner: whether Y is out of range.
    #[inline(always)]
    pub fn sum_outside(self, sum: TableUnits) -> bool
        ensures { result ≡ sum_outside self.entry.design sum.0 }
    {
        is_outside(pow2(self.design.q + self.design.g + 2), sum)
    }

    // inner: the word that Y comes to.
    #[inline(always)]
    pub fn word_of(self, sum: TableUnits) -> OutputUnits
        requires { sum_outside self.design sum.0 ≡ false }
        ensures { result ≡ record { 0 = word_of self.entry.design sum.0 } }
    {
        divided(self.design.g, sum)
    }
}

impl<'a> TableSet<'a> {
    // The set that these tables are, in parts as C lends it, or the first of the refusals 1 to 10. Always inlined, for the same reason as its
    // lookups.
    #[inline(always)]
    pub fn of(d: Design, initial: &'a [u32], offsets: &'a [i32]) -> Result<TableSet<'a>, Cause>
        ensures verdict { verdict_of result ≡ verdict (set_checks d (length initial.now) (length offsets.now)) }
        ensures kept { IfOk result
            (λ set. (set.tables.design ≡ d) × (set.initial.now ≡ initial.now) × (set.tables.offsets.now ≡ offsets.now)) }
    {
        let legal = checked_set(d, initial.len(), offsets.len())?;
        let tables = OffsetTables {
            design: d,
            lookups: lookups_of(legal),
            offsets,
        };
        Ok(TableSet { tables, initial })
    }

    // inner: Y, summed from the tables: the initial entry and m offsets.
    #[inline(always)]
    pub fn sum_of(self, x: u32) -> TableUnits
        requires { x < 2 ^ self.tables.design.w }
        ensures { result ≡ record { 0 = sum_at self.entry.tables.design self.entry.initial.now self.entry.tables.offsets.now x } }
    {
        let d = self.tables.design;
        let entry = self.initial[(x >> (d.w - d.alpha)) as usize];
        self.tables.sum_from(entry, x, x)
    }
}
