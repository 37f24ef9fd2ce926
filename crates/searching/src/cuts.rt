// The best design over all choices of pairs, in document 02's order.
ghost use Rattle.std.specs.Prelude.{◌≡◌, ◌+◌, ◌-◌, ◌*◌, ◌≤◌, ◌<◌, min, max};
ghost use Rattle.general.specs.Below.{for_each};
ghost use Rattle.design.specs.Limits.{most_tables, most_offset_bits, most_table_bits};
ghost use Rattle.searching.specs.Designs.{continued, with_pair};
ghost use Rattle.searching.specs.Best.{fewer, best_of};

use crate::SizedDesign;
use crate::prefix::{Prefix, with_pair};
use design::limits::{MOST_OFFSET_BITS, MOST_TABLE_BITS};

// The fewest bits of B that leave the later tables no more than they can take.
fn least_offset_bits(left: u32, later: u32) -> u32
    requires { later < most_tables }
    ensures { result ≡ max 1 (left - later * most_offset_bits) }
{
    left.saturating_sub(later * MOST_OFFSET_BITS).max(1)
}

// The most: b and a + b have their limits, and each later table takes at least one bit.
fn most_offset_bits(left: u32, later: u32, a: u32) -> u32
    requires { (later < left) × (a < most_table_bits) }
    ensures { result ≡ min most_offset_bits (min (left - later) (most_table_bits - a)) }
{
    MOST_OFFSET_BITS.min((left - later).min(MOST_TABLE_BITS as u32 - a))
}

// Whether so many bits are fewer than those of the best so far; any number is where there is none.
#[tactic(auto, unfolding(crate::specs::Best::fewer))]
fn is_fewer(bits: u64, best: Option<SizedDesign>) -> bool
    ensures { result ≡ fewer bits best }
{
    best.is_none_or(|found| bits < found.bits)
}

// The best so far, or of the designs with one more table, which is the last: its b is all that is left. The size grows with a, so the
// first a that is admitted is the best.
fn last_table(prefix: &Prefix, best: Option<SizedDesign>) -> Option<SizedDesign>
    requires { prefix.now.tables + 1 ≡ prefix.now.design.m }
    ensures { result ≡ best_of best (continued 1 prefix.now.design prefix.now.tables) }
{
    let d = prefix.design;
    let b = d.w - d.alpha - prefix.position;
    let end = (d.alpha + 1).min(MOST_TABLE_BITS as u32 + 1 - b);
    for a in 1..end {
        let bits = prefix.size_with(a, b);
        if !is_fewer(bits, best) {
            return best;
        }
        if prefix.budget_with(a, b) < prefix.limit {
            let design = with_pair(d, prefix.tables, a, b);
            return Some(SizedDesign { design, bits });
        }
    }
    best
}

// The same for any number of tables more, by a of the next one: a + b has its limit, and b is at least 1.
#[cycle(each_offset_bits_each_segment_bits)]
pub fn each_segment_bits(prefix: &Prefix, best: Option<SizedDesign>) -> Option<SizedDesign>
    requires { prefix.now.tables < prefix.now.design.m }
    ensures { result ≡ best_of best (continued (prefix.now.design.m - prefix.now.tables) prefix.now.design prefix.now.tables) }
{
    if prefix.tables + 1 == prefix.design.m {
        return last_table(prefix, best);
    }
    let end = (prefix.design.alpha + 1).min(MOST_TABLE_BITS as u32);
    let mut found = best;
    for a in 1..end {
        found = each_offset_bits(prefix, a, found);
    }
    found
}

// The same, by b of the next table, whose a is chosen. Its size grows with b, and so does its budget with the least that the later tables
// add. So where one of them is too large, no larger b is tried.
#[cycle(each_offset_bits_each_segment_bits)]
fn each_offset_bits(prefix: &Prefix, a: u32, best: Option<SizedDesign>) -> Option<SizedDesign>
    requires more { prefix.now.tables + 1 < prefix.now.design.m }
    requires le_a { (1 ≤ a) × (a ≤ prefix.now.design.alpha) × (a < most_table_bits) }
    ensures { result ≡ best_of best (for_each 1 most_offset_bits
        (λ b. continued (prefix.now.design.m - (prefix.now.tables + 1)) (with_pair prefix.now.design prefix.now.tables a b)
        (prefix.now.tables + 1))) }
{
    let d = prefix.design;
    let i = prefix.tables;
    let left = d.w - d.alpha - prefix.position;
    let later = d.m - (i + 1);
    let first = least_offset_bits(left, later);
    let end = most_offset_bits(left, later, a) + 1;
    let mut found = best;
    for b in first..end {
        let position = prefix.position + b;
        let bits = prefix.size_with(a, b);
        let budget = prefix.budget_with(a, b);
        if !is_fewer(bits, found) || prefix.limit <= budget + prefix.rest_from(position) {
            return found;
        }
        let next = Prefix {
            design: with_pair(d, i, a, b),
            tables: i + 1,
            position,
            bits,
            budget,
            limit: prefix.limit,
            least: prefix.least,
            slopes: prefix.slopes,
        };
        found = each_segment_bits(&next, found);
    }
    found
}
