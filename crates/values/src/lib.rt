// Exact values of document 01's functions, rounded down, and bounds of their slopes.
#![tactic(auto)]

ghost use Rattle.std.specs.Prelude.{◌≡◌, ◌+◌, T, nat_abs};
ghost use Rattle.std.specs.Int.Signed.{non_neg};
ghost use Rattle.refusal.specs.Told.{told_by};
ghost use Rattle.values.specs.Value.{value_of, value_told};

pub mod faithful;
pub mod floor;
mod newton;
pub mod parts;
pub mod rows;
pub mod slopes;
pub mod widths;

use general::pow2;
use parts::Argument;
use refusal::Cause;
use rows::row_of;
use widths::{limits_of, width_verdict};

// A count of table units, of either sign. 2^g of them are one output unit.
#[derive(Clone, Copy, Debug, PartialEq, Eq)]
pub struct TableUnits(pub i64);

impl TableUnits {
    // inner: a count that is not negative, as a plain number.
    pub fn count(self) -> u64
        requires { T (non_neg self.0) }
        ensures { result ≡ nat_abs self.0 }
    {
        self.0 as u64
    }
}

// A count of output units.
#[derive(Clone, Copy, Debug, PartialEq, Eq)]
pub struct OutputUnits(pub u32);

// A floor value: L(X), and whether E(X) is that whole number.
#[derive(Clone, Copy, Debug, PartialEq, Eq)]
pub struct FloorValue {
    pub units: TableUnits,
    pub whole: bool,
}

// L(X) for an input word x, in table units, and whether it is E(X). The kind is a number and no enum: refusal 1 is for each number that is no
// kind.
pub fn value(kind: u32, w: u32, q: u32, g: u32, x: u32) -> Result<FloorValue, Cause>
    ensures answer { result ≡ value_of kind w q g x }
    ensures told { told_by result ≡ value_told kind w q g x }
{
    width_verdict(limits_of(kind), kind, w, q, g)?;
    let one = pow2(w);
    let word = x as u64;
    if one <= word {
        return Err(Cause::WordRange);
    }
    let argument = Argument {
        row: row_of(kind),
        w,
        x: one + word,
    };
    Ok(argument.floor_and_whole(q + g))
}
