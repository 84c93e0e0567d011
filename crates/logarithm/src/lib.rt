// ln by the written rule of 01 "Elementary functions": by x = m * 2 ^ e and a series in (m - 1)/(m + 1).
#![tactic(auto)]

ghost use Rattle.std.specs.Prelude.{◌≡◌, ◌*◌, ◌^◌, ◌<◌, ◌≤◌, false, T};
ghost use Rattle.std.specs.Float.Ieee.{odd};
ghost use Rattle.std.specs.Float.Ieee.Positive.{positive};
ghost use Rattle.std.specs.Int.Signed.{mag};
ghost use Rattle.logarithm.specs.Logarithm.{parts_of, centred, ln_main, ln_of};

use scalar::{LN_2_HIGH, LN_2_LOW};
use series::ln_series;
// The kit's `as f64`.
use std::num::nearest_i64_to_f64;

// The bit pattern's weight of the exponent's field, 2 ^ 52.
const LEADING: u64 = 0x10_0000_0000_0000;

// √2, above which m is halved.
const ROOT_2: f64 = 1.4142135623730951; // 3FF6A09E667F3BCD

// A number as m * 2 ^ e.
#[derive(Drop)]
pub struct Parts {
    pub m: f64,
    pub e: i64,
}

impl Parts {
    // x = m * 2 ^ e with 1 <= m < 2, for a finite x above 0. A subnormal's digits are brought up to 53.
    fn of(x: f64) -> Self
        requires { T (positive x) }
        ensures parts { result ≡ parts_of x }
        ensures small { mag result.e < 5000 }
    {
        let bits = x.to_bits();
        let field = bits / LEADING;
        let digits = bits % LEADING;
        if field == 0 {
            let lift = 52 - digits.ilog2();
            Parts {
                m: significand(digits << lift),
                e: -i64::from(1022 + lift),
            }
        } else {
            Parts {
                m: significand(LEADING + digits),
                e: field as i64 - 1023,
            }
        }
    }

    // m halved and e raised by 1 where m is above √2.
    #[tactic(auto, using(crate::proofs::Words::raise_rules), unfolding(crate::specs::Logarithm::centred))]
    fn centred(self) -> Self
        requires { mag self.e < 5000 }
        ensures { result ≡ centred self }
    {
        if self.m > ROOT_2 {
            Parts {
                m: self.m * 0.5,
                e: self.e + 1,
            }
        } else {
            self
        }
    }

    // The series in (m - 1)/(m + 1), and e times ln 2.
    #[tactic(auto, unfolding(crate::specs::Logarithm::ln_main, crate::specs::Logarithm::ln_frac))]
    fn ln(self) -> f64
        ensures { result ≡ ln_main self }
    {
        let n = nearest_i64_to_f64(self.e);
        let f = (self.m - 1.0) / (self.m + 1.0);
        let s = f * f;
        n * LN_2_HIGH + ((2.0 * f) * ln_series(s) + n * LN_2_LOW)
    }
}

// q / 2 ^ 52, by its bit pattern.
fn significand(q: u64) -> f64
    requires least { 2 ^ 52 ≤ q }
    requires most { q < 2 ^ 53 }
    ensures { result ≡ odd 53 false q 1022 1074 }
{
    f64::from_bits(1022 * LEADING + q)
}

// NaN or below 0 NaN, 0 -infinity, +infinity itself.
#[tactic(auto, using(crate::proofs::Positive::ln_rules), unfolding(crate::specs::Logarithm::ln_of))]
pub fn ln(x: f64) -> f64
    ensures { result ≡ ln_of x }
{
    if x.is_nan() || x < 0.0 {
        return f64::NAN;
    }
    if x == 0.0 {
        return f64::NEG_INFINITY;
    }
    if x == f64::INFINITY {
        return f64::INFINITY;
    }
    Parts::of(x).centred().ln()
}
