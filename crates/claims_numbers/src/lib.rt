// What is claimed of numbers. No program calls these functions: they stand for their contracts, so that the check names each
// claim as proved. Most do nothing; those of `Ieee754` compute, since their claims are about operators.
#![tactic(auto)]

mod operators;
mod operators_f32;

ghost use Rattle.std.specs.Prelude.{◌≡◌};
ghost use Rattle.claims_numbers.specs.Ieee.{MeetsIeee754, Determined, OverflowsAtMidpoint};
ghost use Rattle.claims_numbers.specs.Exact.{ExactValues};
ghost use Rattle.claims_numbers.specs.Elementary.{NearestIsNearest, LnSplits, constants_of};
ghost use Rattle.claims_numbers.specs.Decimals.{DecimalsAreNearest};

pub use operators::Ieee754;

// Demand 2: "Arithmetic and square root meet IEEE 754 by proof."
pub fn arithmetic_meets_ieee_754()
    ensures { MeetsIeee754 }
{}

// IEEE 754 leaves no choice: two results that both meet it are one.
pub fn ieee_754_determines()
    ensures { Determined }
{}

// Overflow begins at IEEE 754's midpoint.
pub fn ieee_754_overflow()
    ensures { OverflowsAtMidpoint }
{}

// 02's Q-5: a finite number, scaled, is a whole number, and that is its exact value.
pub fn exact_values()
    ensures { ExactValues }
{}

// 01's "nearest" is the nearest whole number.
pub fn nearest_is_nearest()
    ensures { NearestIsNearest }
{}

// 01's m and e of ln: 1 ≤ m < 2 and x = m × 2^e.
pub fn ln_splits()
    ensures { LnSplits }
{}

// 004's constants that the filters use.
#[derive(Drop)]
pub struct Constants {
    pub zero: f64,
    pub one: f64,
    pub two: f64,
    pub half: f64,
    pub pi: f64,
    pub epsilon: f64,
}

// They have 01's bits.
pub fn constants_have_their_bits() -> Constants
    ensures { result ≡ constants_of }
{
    Constants {
        zero: scalar::ZERO,
        one: scalar::ONE,
        two: scalar::TWO,
        half: scalar::HALF,
        pi: scalar::PI,
        epsilon: scalar::EPSILON,
    }
}

// A decimal in a request line gives the double nearest to it.
pub fn decimals_are_nearest()
    ensures { DecimalsAreNearest }
{}
