// A design: how the input word is cut up, how many entries that takes, its error budget and whether that is below the limit.
#![tactic(auto)]

ghost use Rattle.std.specs.Prelude.{◌≡◌};
ghost use Rattle.design.specs.Legal.{Legal};
ghost use Rattle.refusal.specs.Told.{told_by};
ghost use Rattle.design.specs.Answers.{budget_answer, budget_told};

pub mod legal;
pub mod limits;
pub mod measure;

use refusal::Cause;

// One offset table: the top a bits of x choose the segment, b bits further down the place in it.
#[derive(Clone, Copy, Debug, PartialEq, Eq)]
pub struct Pair {
    pub a: u32,
    pub b: u32,
}

// A pair of no bits, which stands where there is none.
pub const NO_PAIR: Pair = Pair { a: 0, b: 0 };

// Document 01's design. The kind is a number and no enum, and the pairs are four, whatever m is: the refusals 1 and 6 are for numbers that
// no enum and no slice would hold. Pairs at m and beyond are not read, so that designs are not compared by `==`.
#[derive(Clone, Copy, Debug)]
pub struct Design {
    pub kind: u32,
    pub w: u32,
    pub q: u32,
    pub g: u32,
    pub alpha: u32,
    pub m: u32,
    pub pairs: [Pair; 4],
}

// A design that none of the refusals 1 to 9 turns down. What is worked out of a design is worked out of a legal one.
#[derive(Clone, Copy, Debug)]
pub struct LegalDesign {
    pub design: Design,
    ghost legal: { Legal design },
}

// The budget of a legal design, or the refusal: 1 to 9.
pub fn budget(d: Design) -> Result<u64, Cause>
    ensures answer { result ≡ budget_answer d }
    ensures told { told_by result ≡ budget_told d }
{
    let legal = d.checked()?;
    Ok(legal.budget())
}
