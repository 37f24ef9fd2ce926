// The calls for C and Rust to link, on numbers and slices. Each returns the number of the refusal, 0 where there is none, and puts
// the answer behind a pointer; where it is refused, what is behind the pointer stands, but for a batch's place. Here are those on designs
// and tables.
#![tactic(auto)]

ghost use Rattle.std.specs.Prelude.{◌≡◌, length};
ghost use Rattle.refusal.specs.Numbers.{verdict_number};
ghost use Rattle.refusal.specs.Told.{told_by, number_told};
ghost use Rattle.values.specs.Value.{value_told};
ghost use Rattle.design.specs.Answers.{budget_told};
ghost use Rattle.sizing.specs.Size.{size_told};
ghost use Rattle.filling.specs.Fill.{fill_verdict, initial_after, offsets_after};
ghost use Rattle.evaluating.specs.Evaluate.{evaluate_told};
ghost use Rattle.evaluating.specs.Batch.{batch_told, output_after};
ghost use Rattle.checking.specs.Check.{check_told};
ghost use Rattle.counting.specs.Count.{count_told};
ghost use Rattle.searching.specs.Best.{smallest_told};
ghost use Rattle.exports.specs.Numbers.{design_of};
ghost use Rattle.exports.specs.Behind.{behind, units_after, whole_after, place_after, first_after, five_of, counts_after, design_after, bits_after, sum_told};

mod answers;
mod design_numbers;
mod line_calls;
mod record_calls;

use answers::{number_of, put};
use checking::check;
use counting::{Counts, count};
use design::Design;
use design_numbers::{design_of, numbers_of};
use evaluating::{evaluate, evaluate_batch};
use filling::fill;
use general::pow2;
use refusal::Cause;
use searching::smallest;
use tables::sums::TableSet;
use values::value;

// The value, in table units, and whether the exact value is that whole number.
#[unsafe(no_mangle)]
pub extern "C" fn dorykleth_value(
    kind: u32,
    w: u32,
    q: u32,
    g: u32,
    x: u32,
    units: &mut i64,
    whole: &mut bool,
) -> u8
    ensures number { result ≡ number_told (value_told kind w q g x) }
    ensures units { units.new ≡ units_after (value_told kind w q g x) units.old }
    ensures whole { whole.new ≡ whole_after (value_told kind w q g x) whole.old }
{
    match value(kind, w, q, g, x) {
        Ok(floor) => {
            *units = floor.units.0;
            *whole = floor.whole;
            0
        }
        Err(cause) => cause.into(),
    }
}

#[unsafe(no_mangle)]
pub extern "C" fn dorykleth_budget(design: &[u32; 14], budget: &mut u64) -> u8
    ensures number { result ≡ number_told (budget_told (design_of design.now)) }
    ensures budget { budget.new ≡ behind (budget_told (design_of design.now)) budget.old }
{
    put(design::budget(design_of(design)), budget)
}

#[unsafe(no_mangle)]
pub extern "C" fn dorykleth_size(design: &[u32; 14], bits: &mut u64) -> u8
    ensures number { result ≡ number_told (size_told (design_of design.now)) }
    ensures bits { bits.new ≡ behind (size_told (design_of design.now)) bits.old }
{
    put(sizing::size(design_of(design)), bits)
}

// The smallest design of a kind, w and q as its numbers, and its size in bits.
#[unsafe(no_mangle)]
pub extern "C" fn dorykleth_smallest(
    kind: u32,
    w: u32,
    q: u32,
    design: &mut [u32; 14],
    bits: &mut u64,
) -> u8
    ensures number { result ≡ number_told (smallest_told kind w q) }
    ensures design { design.new ≡ design_after (smallest_told kind w q) design.old }
    ensures bits { bits.new ≡ bits_after (smallest_told kind w q) bits.old }
{
    match smallest(kind, w, q) {
        Ok(best) => {
            *design = numbers_of(best.design);
            *bits = best.bits;
            0
        }
        Err(cause) => cause.into(),
    }
}

#[unsafe(no_mangle)]
pub extern "C" fn dorykleth_fill(design: &[u32; 14], initial: &mut [u32], offsets: &mut [i32]) -> u8
    ensures number { result ≡ verdict_number
        (fill_verdict (design_of design.now) (length initial.old) (length offsets.old)) }
    ensures initial_table { initial.new ≡ initial_after (design_of design.now) initial.old offsets.old }
    ensures offset_tables { offsets.new ≡ offsets_after (design_of design.now) initial.old offsets.old }
{
    number_of(fill(design_of(design), initial, offsets))
}

// Y itself, before it is cut off to a word, or the first of the refusals 1 to 10 and 12.
fn sum_answer(d: Design, initial: &[u32], offsets: &[i32], x: u32) -> Result<i64, Cause>
    ensures { told_by result ≡ sum_told d initial.now offsets.now x }
{
    let set = TableSet::of(d, initial, offsets)?;
    if pow2(d.w) <= x as u64 {
        return Err(Cause::WordRange);
    }
    Ok(set.sum_of(x).0)
}

#[unsafe(no_mangle)]
pub extern "C" fn dorykleth_sum(
    design: &[u32; 14],
    initial: &[u32],
    offsets: &[i32],
    x: u32,
    sum: &mut i64,
) -> u8
    ensures number { result ≡ number_told (sum_told (design_of design.now) initial.now offsets.now x) }
    ensures sum { sum.new ≡ behind (sum_told (design_of design.now) initial.now offsets.now x)
        sum.old }
{
    put(sum_answer(design_of(design), initial, offsets, x), sum)
}

#[unsafe(no_mangle)]
pub extern "C" fn dorykleth_evaluate(
    design: &[u32; 14],
    initial: &[u32],
    offsets: &[i32],
    x: u32,
    word: &mut u32,
) -> u8
    ensures number { result ≡ number_told (evaluate_told (design_of design.now) initial.now offsets.now x) }
    ensures word { word.new
        ≡ behind (evaluate_told (design_of design.now) initial.now offsets.now x)
        word.old }
{
    let answer = evaluate(design_of(design), initial, offsets, x);
    put(answer.map(|units| units.0), word)
}

// The place is always stored: how many words there are, or where the batch is refused the place of the word.
#[unsafe(no_mangle)]
pub extern "C" fn dorykleth_evaluate_batch(
    design: &[u32; 14],
    initial: &[u32],
    offsets: &[i32],
    words: &[u32],
    output: &mut [u32],
    place: &mut usize,
) -> u8
    ensures number { result ≡ number_told
        (batch_told (design_of design.now) initial.now offsets.now words.now
        (length output.old)) }
    ensures contents { output.new
        ≡ output_after (design_of design.now) initial.now offsets.now words.now
        output.old }
    ensures place { place.new ≡ place_after
        (batch_told (design_of design.now) initial.now offsets.now words.now
        (length output.old)) }
{
    match evaluate_batch(design_of(design), initial, offsets, words, output) {
        Ok(count) => {
            *place = count;
            0
        }
        Err(refusal) => {
            *place = refusal.place;
            refusal.cause.into()
        }
    }
}

// The lowest unfaithful word, or where all are faithful 2^w, which is no word.
#[unsafe(no_mangle)]
pub extern "C" fn dorykleth_check(
    design: &[u32; 14],
    initial: &[u32],
    offsets: &[i32],
    first: &mut u64,
) -> u8
    ensures number { result ≡ number_told (check_told (design_of design.now) initial.now offsets.now) }
    ensures first { first.new ≡ first_after (design_of design.now).w
        (check_told (design_of design.now) initial.now offsets.now)
        first.old }
{
    let d = design_of(design);
    match check(d, initial, offsets) {
        Ok(None) => {
            *first = pow2(d.w);
            0
        }
        Ok(Some(x)) => {
            *first = u64::from(x);
            0
        }
        Err(cause) => cause.into(),
    }
}

// The five counts, in the order of their names in `Counts`. A function and no `From`, as for a design's numbers.
fn five(counts: Counts) -> [u32; 5]
    ensures { result ≡ five_of counts }
{
    [
        counts.outside,
        counts.nearest,
        counts.faithful,
        counts.low,
        counts.high,
    ]
}

#[unsafe(no_mangle)]
pub extern "C" fn dorykleth_count(
    design: &[u32; 14],
    initial: &[u32],
    offsets: &[i32],
    counts: &mut [u32; 5],
) -> u8
    ensures number { result ≡ number_told (count_told (design_of design.now) initial.now offsets.now) }
    ensures counts { counts.new ≡ counts_after (count_told (design_of design.now) initial.now offsets.now)
        counts.old }
{
    put(count(design_of(design), initial, offsets).map(five), counts)
}
