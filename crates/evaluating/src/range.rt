// Whether the sums of a set can be out of range at all. Where one pass over the tables tells that they cannot, a large batch is saved the
// sums of its first pass.
ghost use Rattle.std.specs.Prelude.{◌≡◌, true, ◌≤◌, ◌<◌, length, get_or, pos};
ghost use Rattle.std.specs.Int.Signed.{mag};
ghost use Rattle.general.specs.Below.{largest, some_below};
ghost use Rattle.refusal.specs.Checks as Checks;
ghost use Rattle.evaluating.specs.Range.{SumsInRange, width_answer};

use crate::BatchRefusal;
use design::LegalDesign;
use general::pow2;
use refusal::{Cause, outside};
use tables::sums::TableSet;

// v, or -1 - v where v is negative.
fn magnitude(v: i32) -> u32
    ensures { result ≡ mag v }
{
    if v < 0 { (-1 - v) as u32 } else { v as u32 }
}

fn largest_magnitude(offsets: &[i32]) -> u32
    ensures { result ≡ largest (length offsets.now) (λ i. mag (get_or offsets.now i (pos 0))) }
{
    let mut largest = 0;
    for &offset in offsets {
        largest = magnitude(offset).max(largest);
    }
    largest
}

// Whether some initial entry is not one of low..high.
fn some_outside(low: u32, high: u32, initial: &[u32]) -> bool
    ensures { result ≡ some_below (length initial.now) (λ i. Checks.outside low high (get_or initial.now i 0)) }
{
    initial.iter().any(|&entry| outside(low, high, entry))
}

// Whether every initial entry is further from both ends of the range than m offsets of the largest magnitude reach.
pub fn sums_in_range(set: TableSet) -> bool
    ensures { result ≡ true → SumsInRange set.entry.tables.design set.entry.initial.now set.entry.tables.offsets.now }
{
    let d = set.tables.design;
    let legal = LegalDesign { design: d };
    let offsets = &set.tables.offsets[..legal.offset_total() as usize];
    let size = largest_magnitude(offsets) as u64 + 1;
    let reach = d.m as u64 * size;
    let limit = legal.sum_limit();
    if limit <= reach {
        return false;
    }
    let initial = &set.initial[..pow2(d.alpha) as usize];
    !some_outside(reach as u32, (limit - reach - 1) as u32, initial)
}

// The lowest word of w bits or more, which is refused with 12, or how many words there are.
pub fn width_answer(w: u32, words: &[u32]) -> Result<usize, BatchRefusal>
    requires { w < 64 }
    ensures { result ≡ width_answer w words.now }
{
    let limit = pow2(w);
    match words.iter().position(|&x| limit <= x as u64) {
        Some(place) => Err(BatchRefusal {
            cause: Cause::WordRange,
            place,
        }),
        None => Ok(words.len()),
    }
}
