// Evaluation of one word or of a batch, from any tables that are long enough for the design.
#![tactic(auto)]

ghost use Rattle.std.specs.Prelude.{◌≡◌, ◌++◌, map, ℕ, ◌<◌, ◌≤◌, length, drop, IfOk, Ok};
ghost use Rattle.refusal.specs.Checks.{verdict, verdict_of};
ghost use Rattle.tables.specs.Sum.{word_at};
ghost use Rattle.evaluating.specs.Evaluate.{word_checks, evaluated, evaluate_answer, evaluate_told};
ghost use Rattle.evaluating.specs.Evaluate as Evaluate;
ghost use Rattle.evaluating.specs.Batch.{room_verdict, place_verdict, batch_below, batch_answer, batch_told, output_after};
ghost use Rattle.evaluating.specs.Batch as Batch;

mod range;

use design::{Design, LegalDesign};
use general::pow2;
use range::{sums_in_range, width_answer};
use refusal::Cause;
use tables::sums::TableSet;
use values::OutputUnits;

// Why `evaluate_batch` refuses, and the place of the lowest bad word (0 if no word is the cause). A struct and no case of `Cause`: C gets a
// place whatever the cause is.
#[derive(Clone, Copy, Debug, PartialEq, Eq)]
pub struct BatchRefusal {
    pub cause: Cause,
    pub place: usize,
}

// A cause that is found before any word is looked at.
impl From<Cause> for BatchRefusal {
    ghost from_gives = { λ cause refusal. refusal ≡ record { cause = cause; place = 0 } };

    fn from(cause: Cause) -> BatchRefusal {
        BatchRefusal { cause, place: 0 }
    }
}

// Refusals 12 and 13 of a word, or the word itself: one sum, m + 1 lookups. Inlined into the loop, as the methods of the set are.
#[inline(always)]
fn word_answer(set: TableSet, x: u32) -> Result<OutputUnits, Cause>
    ensures { result ≡ evaluated
        (verdict (word_checks set.entry.tables.design set.entry.initial.now set.entry.tables.offsets.now x))
        (word_at set.entry.tables.design set.entry.initial.now set.entry.tables.offsets.now x) }
{
    if pow2(set.tables.design.w) <= x as u64 {
        return Err(Cause::WordRange);
    }
    let sum = set.sum_of(x);
    if set.tables.sum_outside(sum) {
        return Err(Cause::SumRange);
    }
    Ok(set.tables.word_of(sum))
}

// The word that x gets, or the first refusal.
pub fn evaluate(d: Design, initial: &[u32], offsets: &[i32], x: u32) -> Result<OutputUnits, Cause>
    ensures answer { result ≡ evaluate_answer d initial.now offsets.now x }
    ensures told { Evaluate.told_by result ≡ evaluate_told d initial.now offsets.now x }
{
    let set = TableSet::of(d, initial, offsets)?;
    word_answer(set, x)
}

// The set of a batch, or the first of the refusals 1 to 10 and 14: what is tried once, before any of its words.
fn batch_set<'a>(
    d: Design,
    initial: &'a [u32],
    offsets: &'a [i32],
    words: usize,
    output: usize,
) -> Result<TableSet<'a>, Cause>
    ensures verdict { verdict_of result ≡ room_verdict d initial.now offsets.now words output }
    ensures kept { IfOk result
        (λ set. (set.tables.design ≡ d) × (set.initial.now ≡ initial.now) × (set.tables.offsets.now ≡ offsets.now)) }
{
    let set = TableSet::of(d, initial, offsets)?;
    if output < words {
        return Err(Cause::OutputShort);
    }
    Ok(set)
}

// Each word in turn, with its sum: how many words there are, or the lowest that is refused.
fn summed_verdict(set: TableSet, words: &[u32]) -> Result<usize, BatchRefusal>
    ensures { result ≡ batch_below (length words.now)
        (place_verdict set.entry.tables.design set.entry.initial.now set.entry.tables.offsets.now words.now) }
{
    for (place, &x) in words.iter().enumerate() {
        if let Err(cause) = word_answer(set, x) {
            return Err(BatchRefusal { cause, place });
        }
    }
    Ok(words.len())
}

// The first pass: how many words there are, or the lowest that is refused. It writes nothing. Where there are more words than entries, it
// is cheaper to ask first whether any sum can be out of range.
fn words_verdict(set: TableSet, words: &[u32]) -> Result<usize, BatchRefusal>
    ensures { result ≡ batch_below (length words.now)
        (place_verdict set.entry.tables.design set.entry.initial.now set.entry.tables.offsets.now words.now) }
{
    let d = set.tables.design;
    let legal = LegalDesign { design: d };
    let entries = pow2(d.alpha) + legal.offset_total();
    if entries < words.len() as u64 && sums_in_range(set) {
        return width_answer(d.w, words);
    }
    summed_verdict(set, words)
}

// A word that is known to pass.
#[inline(always)]
fn word(set: TableSet, x: u32) -> OutputUnits
    requires { verdict (word_checks set.tables.design set.initial.now set.tables.offsets.now x) ≡ Ok tt }
    ensures { result ≡ record { 0 = word_at set.entry.tables.design set.entry.initial.now set.entry.tables.offsets.now x } }
{
    set.tables.word_of(set.sum_of(x))
}

// The second pass, once every word has passed: each word's output at its place.
fn write_words(set: TableSet, words: &[u32], output: &mut [u32])
    requires by_index { (i : ℕ) → i < length words.now
        → place_verdict set.tables.design set.initial.now set.tables.offsets.now words.now i ≡ Ok tt }
    requires words_in_bounds { length words.now ≤ length output.old }
    ensures { output.new ≡ map (word_at set.entry.tables.design set.entry.initial.now set.entry.tables.offsets.now) words.now
        ++ drop (length words.now) output.old }
{
    for (n, &x) in words.iter().enumerate() {
        output[n] = word(set, x).0;
    }
}

// All words of the batch, or none: nothing is written before every word has been looked at.
pub fn evaluate_batch(
    d: Design,
    initial: &[u32],
    offsets: &[i32],
    words: &[u32],
    output: &mut [u32],
) -> Result<usize, BatchRefusal>
    ensures answer { result
        ≡ batch_answer d initial.now offsets.now words.now (length output.old) }
    ensures contents { output.new
        ≡ output_after d initial.now offsets.now words.now output.old }
    ensures told { Batch.told_by result
        ≡ batch_told d initial.now offsets.now words.now (length output.old) }
{
    let set = batch_set(d, initial, offsets, words.len(), output.len())?;
    let count = words_verdict(set, words)?;
    write_words(set, words, output);
    Ok(count)
}
