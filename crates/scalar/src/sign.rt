// The absolute value, the larger of a number and 0, and whether a number is finite.
ghost use Rattle.std.specs.Prelude.{◌≡◌};
ghost use Rattle.std.specs.Float.Ieee.Scale.{finite};
ghost use Rattle.scalar.specs.Sign.{abs_of, max_zero_of};

// Clears the sign bit; a NaN stays a NaN.
#[tactic(auto, using(crate::proofs::Signs::abs_is))]
pub fn abs(x: f64) -> f64
    ensures { result ≡ abs_of x }
{
    x.abs()
}

// max(x, 0): x where x > 0, else +0; so a NaN gives +0. A comparison, since `max` may give either of two zeros.
#[tactic(auto, unfolding(crate::specs::Sign::max_zero_of))]
pub fn max_zero(x: f64) -> f64
    ensures { result ≡ max_zero_of x }
{
    if 0.0 < x { x } else { 0.0 }
}

// Whether x is neither an infinity nor a NaN.
#[tactic(auto, using(crate::proofs::Signs::finite_is))]
pub fn is_finite(x: f64) -> bool
    ensures { result ≡ finite x }
{
    x.is_finite()
}
