// The floor value L(X), and whether it is E(X).
ghost use Rattle.std.specs.Prelude.{◌≡◌, pos};
ghost use Rattle.values.specs.Floor.{floor_value, floor_and_whole};
ghost use Rattle.values.specs.Floor as Floor;
ghost use Rattle.values.specs.Inputs.{FloorInput};

use crate::newton::floor_root;
use crate::parts::Argument;
use crate::{FloorValue, TableUnits};

impl Argument {
    // floor(E(X)^k): n is at most E(X) exactly when n^k is at most this. Where the function rises, the division is a shift.
    fn scaled(self, p: u32) -> u64
        requires { FloorInput self.row self.w p self.x }
        ensures { result ≡ Floor.scaled self.row self.w p self.x }
    {
        let value = self.value_part(p);
        if self.row.rising {
            value >> self.w.saturating_sub(self.row.k * p)
        } else {
            value / self.divisor_part(p)
        }
    }

    // inner: L(X) in table units, P = p.
    pub fn floor_value(self, p: u32) -> TableUnits
        requires { FloorInput self.row self.w p self.x }
        ensures { result ≡ record { 0 = pos (floor_value self.row self.w p self.x) } }
    {
        let root = floor_root(self.row.k, p, self.scaled(p));
        TableUnits(root as i64)
    }

    // The same, and whether E(X) is that whole number: it is where the part of L is the value's. No second root.
    pub(crate) fn floor_and_whole(self, p: u32) -> FloorValue
        requires { FloorInput self.row self.w p self.x }
        ensures { result ≡ floor_and_whole self.row self.w p self.x }
    {
        let units = self.floor_value(p);
        let whole = self.number_part(p, units.count()) == self.value_part(p);
        FloorValue { units, whole }
    }
}
