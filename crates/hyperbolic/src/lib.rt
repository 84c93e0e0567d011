// sinh by a series where the magnitude is below 1, and by exp elsewhere, as 02's Q-4 has it; cosh by exp, as 01 "Elementary
// functions" has it; and arcsinh as in 001 (chebyshev.rs).
#![tactic(auto)]

ghost use Rattle.std.specs.Prelude.{◌≡◌};
ghost use Rattle.hyperbolic.specs.Hyperbolic.{sinh_of, cosh_of, arcsinh_of};

use elementary::exp;
use logarithm::ln;
use scalar::abs;
use series::sinh_series;

#[tactic(auto, unfolding(crate::specs::Hyperbolic::sinh_of))]
pub fn sinh(a: f64) -> f64
    ensures { result ≡ sinh_of a }
{
    if abs(a) < 1.0 {
        let s = a * a;
        return a + (a * s) * sinh_series(s);
    }
    (exp(a) - exp(-a)) * 0.5
}

#[tactic(auto, unfolding(crate::specs::Hyperbolic::cosh_of))]
pub fn cosh(a: f64) -> f64
    ensures { result ≡ cosh_of a }
{
    (exp(a) + exp(-a)) * 0.5
}

// ln(x + √(x * x + 1))
#[tactic(auto, unfolding(crate::specs::Hyperbolic::arcsinh_of))]
pub fn arcsinh(x: f64) -> f64
    ensures { result ≡ arcsinh_of x }
{
    ln(x + ieee::sqrt(x * x + 1.0))
}
