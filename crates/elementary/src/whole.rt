// The nearest whole number, and a whole number modulo 4.
ghost use Rattle.std.specs.Prelude.{◌≡◌, ◌^◌};
ghost use Rattle.elementary.specs.Whole.{Within, nearest_of, mod4};

// The kit's `as i64`.
use std::num::truncating_f64_to_i64;

// 01's "nearest": the nearest whole number, ties to even.
#[tactic(auto, using(crate::proofs::Rest::nearest_rules))]
pub(crate) fn nearest(t: f64) -> i64
    requires { Within (2 ^ 52) t }
    ensures { result ≡ nearest_of t }
{
    truncating_f64_to_i64(t.round_ties_even())
}

// z modulo 4, never negative.
pub(crate) fn modulo_four(z: i64) -> u64
    ensures { result ≡ mod4 z }
{
    z.rem_euclid(4) as u64
}
