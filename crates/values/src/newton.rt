// Roots by Newton's method: a step from anywhere comes to the root or above it, and a step from above comes closer.
ghost use Rattle.std.specs.Prelude.{◌≡◌, ◌+◌, ◌^◌, ◌<◌, ltb};
ghost use Rattle.values.specs.Floor.{root_from};
ghost use Rattle.values.specs.Newton.{newton_step};
ghost use Rattle.values.specs.Inputs.{RootInput, Stepwise, StepInput};

use general::pow2;

// A step from r, of degree 2. A further degree gets an arm here, in the test below, in `number_part` and in `neighbour_parts`.
fn step(k: u32, limit: u64, r: u64) -> u64
    requires { StepInput k limit r }
    ensures { result ≡ newton_step k limit r }
{
    (r + limit / r) / 2
}

// Whether r lies above the root, of degree 2.
fn is_above(k: u32, limit: u64, r: u64) -> bool
    requires stepwise { Stepwise k }
    requires r_bound { r < 2 ^ 32 }
    ensures { result ≡ ltb limit (r ^ k) }
{
    limit < r * r
}

// The k-th root of the limit, rounded down, for a limit whose root is below 2^(p+1). Of degree 1 the limit is its own root. The first
// step is taken from 2^p, so that its division is a shift.
pub(crate) fn floor_root(k: u32, p: u32, limit: u64) -> u64
    requires { RootInput k p limit }
    ensures { result ≡ root_from k limit (p + 1) 0 }
{
    if k == 1 {
        return limit;
    }
    let mut root = step(k, limit, pow2(p));
    while is_above(k, limit, root) {
        root = step(k, limit, root);
    }
    root
}
