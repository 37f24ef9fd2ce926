// The best design over all guard bits, initial bits and numbers of tables, in document 02's order.
ghost use Rattle.std.specs.Prelude.{◌≡◌};
ghost use Rattle.general.specs.Below.{for_each};
ghost use Rattle.refusal.specs.Checks.{verdict};
ghost use Rattle.values.specs.Widths.{limits_of, function_checks, width_checks};
ghost use Rattle.design.specs.Limits.{least_initial_bits, most_initial_bits, most_tables};
ghost use Rattle.searching.specs.Designs.{continued};
ghost use Rattle.searching.specs.Designs as Designs;
ghost use Rattle.searching.specs.Best.{best_of, smallest_of};
ghost use Rattle.searching.specs.Search.{Started, SlopesFor, with_tables};

use crate::SizedDesign;
use crate::cuts::each_segment_bits;
use crate::prefix::Prefix;
use crate::slopes::{SPREADS, least_spread, slopes_by_a};
use design::limits::{LEAST_INITIAL_BITS, MOST_INITIAL_BITS, MOST_OFFSET_BITS, MOST_TABLES};
use design::{Design, NO_PAIR};
use sizing::initial_size;
use values::slopes::LargestSlopes;
use values::widths::limits_of;

// The best so far, or of the designs with these numbers, by m: so many tables have to be able to share the bits that are left.
fn each_table_count(
    slopes: &[LargestSlopes; SPREADS],
    d: Design,
    best: Option<SizedDesign>,
) -> Option<SizedDesign>
    requires { Started d × SlopesFor d slopes.now }
    ensures { result ≡ best_of best (for_each 1 most_tables (λ m. continued m (with_tables d m) 0)) }
{
    let left = d.w - d.alpha;
    let bits = initial_size(d.alpha, d.q + d.g);
    let limit = d.limit();
    let least = least_spread(slopes, d.alpha);
    let mut found = best;
    for m in 1..MOST_TABLES + 1 {
        let budget = (m as u64 + 2) * (1 << 17);
        if m <= left && left <= m * MOST_OFFSET_BITS && budget < limit {
            let first = Prefix {
                design: Design {
                    m,
                    pairs: [NO_PAIR; 4],
                    ..d
                },
                tables: 0,
                position: 0,
                bits,
                budget,
                limit,
                least,
                slopes,
            };
            found = each_segment_bits(&first, found);
        }
    }
    found
}

// The same, by alpha.
fn each_initial_bits(
    kind: u32,
    w: u32,
    q: u32,
    g: u32,
    best: Option<SizedDesign>,
) -> Option<SizedDesign>
    requires { verdict (width_checks (limits_of kind) kind w q g) ≡ Ok tt }
    ensures { result ≡ best_of best (for_each least_initial_bits most_initial_bits
        (λ alpha. for_each 1 most_tables (λ m. continued m (Designs.bare kind w q g alpha m) 0))) }
{
    let slopes = slopes_by_a(kind, w, q, g);
    let end = w.min(MOST_INITIAL_BITS + 1);
    let mut found = best;
    for alpha in LEAST_INITIAL_BITS..end {
        let d = Design {
            kind,
            w,
            q,
            g,
            alpha,
            m: 0,
            pairs: [NO_PAIR; 4],
        };
        found = each_table_count(&slopes, d, found);
    }
    found
}

// The best of all designs of a kind, w and q that pass, by g.
pub fn best_design(kind: u32, w: u32, q: u32) -> Option<SizedDesign>
    requires { verdict (function_checks (limits_of kind) kind w q) ≡ Ok tt }
    ensures { result ≡ smallest_of kind w q }
{
    let limits = limits_of(kind);
    let mut found = None;
    for g in limits.g.0..limits.g.1 + 1 {
        if q + g <= limits.sum {
            found = each_initial_bits(kind, w, q, g, found);
        }
    }
    found
}
