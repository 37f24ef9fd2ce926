// How an output word stands to the exact value, told by the parts of the exact value and of the word's neighbours.
ghost use Rattle.std.specs.Prelude.{◌≡◌, ◌+◌, ◌^◌, ◌<◌};
ghost use Rattle.values.specs.Inputs.{FloorInput};
ghost use Rattle.values.specs.Faithful.{is_faithful, is_nearest, is_too_low};

use crate::OutputUnits;
use crate::parts::Argument;

impl Argument {
    // inner: whether y ≥ 1 is strictly less than one output unit from the exact value.
    pub fn is_faithful(self, q: u32, y: OutputUnits) -> bool
        requires floor_input { FloorInput self.row self.w (q + 2) self.x }
        requires y_bound { y.0 < 2 ^ (q + 2) }
        ensures { result ≡ is_faithful self.row self.w q self.x y.0 }
    {
        let word = y.0 as u64;
        if word == 0 {
            return false;
        }
        let exact = self.value_part(q);
        let parts = self.neighbour_parts(q, word);
        parts.low < exact && exact < parts.high
    }

    // inner: whether y ≥ 1 is at most half an output unit from the exact value. Halves are the units of q + 1 fraction bits.
    pub fn is_nearest(self, q: u32, y: OutputUnits) -> bool
        requires floor_input { FloorInput self.row self.w (q + 3) self.x }
        requires y_bound { y.0 < 2 ^ (q + 2) }
        ensures { result ≡ is_nearest self.row self.w q self.x y.0 }
    {
        let word = y.0 as u64;
        if word == 0 {
            return false;
        }
        let exact = self.value_part(q + 1);
        let parts = self.neighbour_parts(q + 1, 2 * word);
        parts.low <= exact && exact <= parts.high
    }

    // inner: whether y is a whole output unit or more below the exact value. 0 is.
    pub fn is_too_low(self, q: u32, y: OutputUnits) -> bool
        requires floor_input { FloorInput self.row self.w (q + 2) self.x }
        requires y_bound { y.0 < 2 ^ (q + 2) }
        ensures { result ≡ is_too_low self.row self.w q self.x y.0 }
    {
        let word = y.0 as u64;
        if word == 0 {
            return true;
        }
        let exact = self.value_part(q);
        let parts = self.neighbour_parts(q, word);
        parts.high <= exact
    }
}
