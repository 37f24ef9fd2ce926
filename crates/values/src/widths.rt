// Refusals 1 to 4, the limits of kind and widths, for every call that takes them.
ghost use Rattle.std.specs.Prelude.{◌≡◌};
ghost use Rattle.refusal.specs.Checks.{verdict};
ghost use Rattle.values.specs.Widths.{limits_of, function_checks, width_checks};

use refusal::{Cause, outside};

// The lowest and the highest number that pass. No `RangeInclusive`, which is not `Copy`.
#[derive(Clone, Copy)]
pub struct Span(pub u32, pub u32);

// The highest kind, the spans of w, q and g, and the highest q + g.
#[derive(Clone, Copy)]
pub struct Limits {
    pub kind: u32,
    pub w: Span,
    pub q: Span,
    pub g: Span,
    pub sum: u32,
}

// The limits that hold for a kind: the same for all.
pub fn limits_of(kind: u32) -> Limits
    ensures { result ≡ limits_of kind }
{
    Limits {
        kind: 4,
        w: Span(6, 16),
        q: Span(6, 16),
        g: Span(2, 6),
        sum: 20,
    }
}

// The refusals 1 to 3, by the limits.
pub fn function_verdict(limits: Limits, kind: u32, w: u32, q: u32) -> Result<(), Cause>
    ensures { result ≡ verdict (function_checks limits kind w q) }
{
    if outside(0, limits.kind, kind) {
        return Err(Cause::Kind);
    }
    if outside(limits.w.0, limits.w.1, w) {
        return Err(Cause::InputWidth);
    }
    if outside(limits.q.0, limits.q.1, q) {
        return Err(Cause::OutputWidth);
    }
    Ok(())
}

// The refusals 1 to 4, by the limits. q + g is formed in 64 bits, so that it cannot wrap into legality, whatever the limits.
pub fn width_verdict(limits: Limits, kind: u32, w: u32, q: u32, g: u32) -> Result<(), Cause>
    ensures { result ≡ verdict (width_checks limits kind w q g) }
{
    function_verdict(limits, kind, w, q)?;
    if outside(limits.g.0, limits.g.1, g) {
        return Err(Cause::GuardBits);
    }
    if (limits.sum as u64) < q as u64 + g as u64 {
        return Err(Cause::GuardBits);
    }
    Ok(())
}
