// exp and powers of ten: by the nearest multiple of ln 2, a series in what is left, and a power of two.
ghost use Rattle.std.specs.Prelude.{◌≡◌};
ghost use Rattle.elementary.specs.Exponential.{Scale, pow2, exp_rest, exp_main, exp_of, pow10_of};

use super::whole::nearest;
use scalar::{LN_2, LN_2_HIGH, LN_2_LOW};
use series::exp_series;
// The kit's `as f64`.
use std::num::nearest_i64_to_f64;

const LN_10: f64 = 2.302585092994046; // 40026BB1BBB55516

// r = (x - k * high) - k * low.
#[tactic(auto, unfolding(crate::specs::Exponential::exp_rest))]
fn exp_rest(x: f64, k: i64) -> f64
    ensures { result ≡ exp_rest x k }
{
    let n = nearest_i64_to_f64(k);
    (x - n * LN_2_HIGH) - n * LN_2_LOW
}

// 2 to the k, by its bit pattern.
#[tactic(auto, using(crate::proofs::Powers::power_rules))]
fn power_of_two(k: i64) -> f64
    requires { Scale k }
    ensures { result ≡ pow2 k }
{
    f64::from_bits(((k + 1023) as u64) << 52)
}

#[tactic(auto, unfolding(crate::specs::Exponential::exp_main))]
fn exp_main(x: f64, k: i64) -> f64
    requires { Scale k }
    ensures { result ≡ exp_main x k }
{
    exp_series(exp_rest(x, k)) * power_of_two(k)
}

// Above 709 +infinity, below -708 +0, NaN to NaN.
#[tactic(auto, using(scalar::proofs::NaN::constants), unfolding(crate::specs::Exponential::exp_of, crate::specs::Exponential::exp_count))]
pub fn exp(x: f64) -> f64
    ensures { result ≡ exp_of x }
{
    if x > 709.0 {
        return f64::INFINITY;
    }
    if x < -708.0 {
        return 0.0;
    }
    if x.is_nan() {
        return f64::NAN;
    }
    exp_main(x, nearest(x / LN_2))
}

// 10 to the y.
#[tactic(auto, unfolding(crate::specs::Exponential::pow10_of))]
pub fn pow10(y: f64) -> f64
    ensures { result ≡ pow10_of y }
{
    exp(y * LN_10)
}
