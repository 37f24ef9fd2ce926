// The largest Hi - Lo and the largest Hi + Lo for each number of segment bits, found once for a function and its widths.
ghost use Rattle.std.specs.Prelude.{◌+◌, ◌≡◌};
ghost use Rattle.refusal.specs.Checks.{verdict};
ghost use Rattle.values.specs.Widths.{limits_of, width_checks};
ghost use Rattle.searching.specs.Search.{SlopesOf, LeastOf};

use design::limits::MOST_TABLE_BITS;
use values::rows::row_of;
use values::slopes::{LargestSlopes, Segments};

// Slopes are kept by a: a table has at least one bit of B, so a is below the highest a + b.
pub const SPREADS: usize = MOST_TABLE_BITS as usize;

// Both by a, for kind and widths that pass. Those of a 0 and of a at w and beyond are left 0.
pub fn slopes_by_a(kind: u32, w: u32, q: u32, g: u32) -> [LargestSlopes; SPREADS]
    requires { verdict (width_checks (limits_of kind) kind w q g) ≡ Ok tt }
    ensures { SlopesOf kind w (q + g) result }
{
    let row = row_of(kind);
    let mut slopes = [LargestSlopes { spread: 0, sum: 0 }; SPREADS];
    for a in 1..w.min(SPREADS as u32) {
        let segments = Segments {
            row,
            w,
            p: q + g,
            a,
        };
        slopes[a as usize] = segments.largest();
    }
    slopes
}

// The least of the spreads that a table can have, whose a is at most alpha.
pub fn least_spread(slopes: &[LargestSlopes; SPREADS], alpha: u32) -> u64
    ensures { LeastOf slopes.now alpha result }
{
    slopes
        .iter()
        .take(alpha as usize + 1)
        .skip(1)
        .map(|largest| largest.spread)
        .min()
        .unwrap_or(0)
}
