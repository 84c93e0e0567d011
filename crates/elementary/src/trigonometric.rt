// sin, cos and tan: by the nearest quarter turn and a series in what is left of the angle.
ghost use Rattle.std.specs.Prelude.{◌≡◌, cond};
ghost use Rattle.elementary.specs.Trigonometric.{turnable, reduced_of, sin_in, cos_in, sin_of, cos_of, tan_of};

use super::whole::{modulo_four, nearest};
use scalar::abs;
use series::{cos_rest, sin_rest};
// The kit's `as f64`.
use std::num::nearest_i64_to_f64;

const TWO_OVER_PI: f64 = 0.6366197723675814; // 3FE45F306DC9C883

// π/2 in two parts.
const HALF_PI_HIGH: f64 = 1.5707963267341256; // 3FF921FB54400000

const HALF_PI_LOW: f64 = 6.077100506506192e-11; // 3DD0B4611A626331

// The largest magnitude of an angle; a larger one gives NaN.
const LARGEST_ANGLE: f64 = 128.0;

// An angle as quarter turns, modulo 4, and the rest r.
#[derive(Drop)]
pub struct Angle {
    pub quadrant: u64,
    pub rest: f64,
}

impl Angle {
    // q = nearest of x * 2/π; r = (x - q * high) - q * low. None of a number that is not finite or too large. Inline, so that the
    // angle is not put into memory, which takes stack.
    #[inline(always)]
    fn of(x: f64) -> Option<Self>
        ensures { result ≡ cond (turnable x) (Some (reduced_of x)) None }
    {
        if abs(x) <= LARGEST_ANGLE {
            let q = nearest(x * TWO_OVER_PI);
            let n = nearest_i64_to_f64(q);
            Some(Angle {
                quadrant: modulo_four(q),
                rest: (x - n * HALF_PI_HIGH) - n * HALF_PI_LOW,
            })
        } else {
            None
        }
    }

    // 01's match on q modulo 4: S, C, −S, −C. By its numbers, as 01 has it: an enum of the quarters would be made from them, and be
    // no plainer.
    #[tactic(auto, unfolding(crate::specs::Trigonometric::sin_at))]
    fn sin(self) -> f64
        ensures { result ≡ sin_in self }
    {
        match self.quadrant {
            0 => sin_rest(self.rest),
            1 => cos_rest(self.rest),
            2 => -sin_rest(self.rest),
            _ => -cos_rest(self.rest),
        }
    }

    // And C, −S, −C, S.
    #[tactic(auto, unfolding(crate::specs::Trigonometric::cos_at))]
    fn cos(self) -> f64
        ensures { result ≡ cos_in self }
    {
        match self.quadrant {
            0 => cos_rest(self.rest),
            1 => -sin_rest(self.rest),
            2 => -cos_rest(self.rest),
            _ => sin_rest(self.rest),
        }
    }
}

// sin and cos differ in one method; a function that took it as a closure would be no plainer.
#[tactic(auto, unfolding(crate::specs::Trigonometric::sin_of))]
pub fn sin(x: f64) -> f64
    ensures { result ≡ sin_of x }
{
    Angle::of(x).map_or(f64::NAN, |a| a.sin())
}

#[tactic(auto, unfolding(crate::specs::Trigonometric::cos_of))]
pub fn cos(x: f64) -> f64
    ensures { result ≡ cos_of x }
{
    Angle::of(x).map_or(f64::NAN, |a| a.cos())
}

#[tactic(auto, unfolding(crate::specs::Trigonometric::tan_of))]
pub fn tan(x: f64) -> f64
    ensures { result ≡ tan_of x }
{
    sin(x) / cos(x)
}
