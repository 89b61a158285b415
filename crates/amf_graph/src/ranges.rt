//! What the types of numbers say of their values. The items of a slice of signed numbers or of doubles are known to fit
//! once they are read.

ghost use Rattle.std.specs.Prelude.{◌<◌, ◌^◌, FitsSigned};
ghost use Rattle.std.specs.List.{AllByRecursion};
ghost use Rattle.std.specs.Int.{w32};
ghost use Rattle.amf_graph.specs.Graph.{IsPattern};

use amf_wire::Pattern;

pub(crate) fn bytes_fit(bytes: &[u8])
    ensures { AllByRecursion (λ b. b < 256) bytes.now }
{}

pub(crate) fn uints_fit(uints: &[u32])
    ensures { AllByRecursion (λ n. n < 2 ^ 32) uints.now }
{}

pub(crate) fn ints_fit(ints: &[i32])
    ensures { AllByRecursion (FitsSigned w32) ints.now }
{
    for n in ints {
        let _read = *n;
    }
}

pub(crate) fn pattern_fits(pattern: Pattern)
    ensures { IsPattern pattern.0 }
{}

pub(crate) fn patterns_fit(patterns: &[Pattern])
    ensures { AllByRecursion (λ p. IsPattern p.0) patterns.now }
{
    for pattern in patterns {
        pattern_fits(*pattern);
    }
}
