// Table sets: the refusals 1 to 10 that the calls over them share, and the sums and words that they give.
#![tactic(auto)]

ghost use Rattle.std.specs.Prelude.{◌≡◌, IfOk};
ghost use Rattle.refusal.specs.Checks.{verdict, verdict_of};
ghost use Rattle.tables.specs.Set.{tables_check, set_checks};

pub mod lookups;
pub mod runs;
pub mod sums;

use design::{Design, LegalDesign};
use general::pow2;
use refusal::Cause;

// inner: whether either table is shorter than the set, by their lengths.
pub fn tables_short(legal: LegalDesign, initial: usize, offsets: usize) -> bool
    ensures { result ≡ (tables_check legal.design initial offsets).fails }
{
    (initial as u64) < pow2(legal.design.alpha) || (offsets as u64) < legal.offset_total()
}

// The design of a set, or the first of the refusals 1 to 10 of any call that takes the set, by the lengths of its tables. Inlined, as
// `Design::checked` is.
#[inline(always)]
pub fn checked_set(d: Design, initial: usize, offsets: usize) -> Result<LegalDesign, Cause>
    ensures verdict { verdict_of result ≡ verdict (set_checks d initial offsets) }
    ensures same { IfOk result (λ legal. legal.design ≡ d) }
{
    let legal = d.checked()?;
    if tables_short(legal, initial, offsets) {
        return Err(Cause::TablesShort);
    }
    Ok(legal)
}
