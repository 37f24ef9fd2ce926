// The two sides of the one inequality between a whole number and the exact value, without their common power of two. No division.
ghost use Rattle.std.specs.Prelude.{◌≡◌, ◌+◌, ◌-◌, ◌^◌, ◌≤◌};
ghost use Rattle.values.specs.Exact.{AtMost};
ghost use Rattle.values.specs.Parts.{divisor_part, number_part, value_part};
ghost use Rattle.values.specs.Inputs.{FloorInput};

use crate::rows::Row;
use general::pow2;

// An argument X of a function, for input words of w bits: c·X / 2^w by the function's row. How many fraction bits are asked for differs from
// call to call, so that `FloorInput` stays a `requires` and is no field of the argument.
#[derive(Clone, Copy, Debug, PartialEq, Eq)]
pub struct Argument {
    pub row: Row,
    pub w: u32,
    pub x: u64,
}

// The parts of two numbers.
#[derive(Clone, Copy)]
pub(crate) struct Parts {
    pub low: u64,
    pub high: u64,
}

impl Argument {
    // What a number's power is multiplied by: what is left of 2^w where the function rises, and c·X where it falls.
    pub(crate) fn divisor_part(self, s: u32) -> u64
        requires { FloorInput self.row self.w s self.x }
        ensures { result ≡ divisor_part self.row self.w s self.x }
    {
        if self.row.rising {
            pow2(self.w.saturating_sub(self.row.k * s))
        } else {
            self.row.c * self.x
        }
    }

    // The value's part, for s fraction bits.
    pub(crate) fn value_part(self, s: u32) -> u64
        requires { FloorInput self.row self.w s self.x }
        ensures { result ≡ value_part self.row self.w s self.x }
    {
        let bits = self.row.k * s;
        if self.row.rising {
            self.row.c * self.x * pow2(bits.saturating_sub(self.w))
        } else {
            pow2(bits + self.w)
        }
    }

    // A number's part, its k-th power times the divisor. Of a number that is at most the exact value it fits, since the value's part does.
    pub(crate) fn number_part(self, s: u32, n: u64) -> u64
        requires floor_input { FloorInput self.row self.w s self.x }
        requires at_most { AtMost self.row self.w s self.x n }
        ensures { result ≡ number_part self.row self.w s self.x n }
    {
        let once = n * self.divisor_part(s);
        if self.row.k == 1 { once } else { n * once }
    }

    // The parts of n - 1 and n + 1, the k-th power of each times the divisor d, for numbers of s + 2 bits, from the same products: (n ∓ 1)·d is
    // n·d ∓ d, and (n ∓ 1)²·d is (n² + 1)·d ∓ 2·n·d.
    pub(crate) fn neighbour_parts(self, s: u32, n: u64) -> Parts
        requires floor_input { FloorInput self.row self.w (s + 2) self.x }
        requires le_n { (1 ≤ n) × (n + 1 ≤ 2 ^ (s + 2)) }
        ensures { result ≡ record { low = number_part self.row self.w s self.x (n - 1); high = number_part self.row self.w s self.x (n + 1) } }
    {
        let divisor = self.divisor_part(s);
        let once = n * divisor;
        if self.row.k == 1 {
            return Parts {
                low: once - divisor,
                high: once + divisor,
            };
        }
        let middle = n * once + divisor;
        Parts {
            low: middle - 2 * once,
            high: middle + 2 * once,
        }
    }
}
