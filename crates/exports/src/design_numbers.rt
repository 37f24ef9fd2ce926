// A design as 14 numbers: kind, w, q, g, alpha, m, then a and b of each of the four pairs.
ghost use Rattle.std.specs.Prelude.{◌≡◌};
ghost use Rattle.exports.specs.Numbers.{design_of, numbers_of};

use design::{Design, Pair};

// The design that the numbers stand for. A function and no `From`, since neither type is of this crate.
pub fn design_of(numbers: &[u32; 14]) -> Design
    ensures { result ≡ design_of numbers.now }
{
    let [kind, w, q, g, alpha, m, a0, b0, a1, b1, a2, b2, a3, b3] = *numbers;
    let pairs = [
        Pair { a: a0, b: b0 },
        Pair { a: a1, b: b1 },
        Pair { a: a2, b: b2 },
        Pair { a: a3, b: b3 },
    ];
    Design {
        kind,
        w,
        q,
        g,
        alpha,
        m,
        pairs,
    }
}

// The other way round.
pub fn numbers_of(d: Design) -> [u32; 14]
    ensures { result ≡ numbers_of d }
{
    let [p0, p1, p2, p3] = d.pairs;
    [
        d.kind, d.w, d.q, d.g, d.alpha, d.m, p0.a, p0.b, p1.a, p1.b, p2.a, p2.b, p3.a, p3.b,
    ]
}
