// The search for the design with the fewest bits, for a function and its widths.
#![tactic(auto)]

ghost use Rattle.std.specs.Prelude.{◌≡◌};
ghost use Rattle.refusal.specs.Told.{told_by};
ghost use Rattle.searching.specs.Best.{smallest_answer, smallest_told};

mod cuts;
mod numbers;
mod prefix;
mod slopes;

use design::Design;
use numbers::best_design;
use refusal::Cause;
use values::widths::{function_verdict, limits_of};

// A design and its size in bits.
#[derive(Clone, Copy, Debug)]
pub struct SizedDesign {
    pub design: Design,
    pub bits: u64,
}

// The first of the admitted designs of a kind, w and q with the fewest bits, or the refusal: 1, 2, 3, or 24 where there is none.
pub fn smallest(kind: u32, w: u32, q: u32) -> Result<SizedDesign, Cause>
    ensures answer { result ≡ smallest_answer kind w q }
    ensures told { told_by result ≡ smallest_told kind w q }
{
    function_verdict(limits_of(kind), kind, w, q)?;
    best_design(kind, w, q).ok_or(Cause::NoneAdmitted)
}
