// The constants of 004 (scalar.rs) that the filters use, with ln 2 and its parts, and what is told of a number by
// comparing it: its absolute value, its maximum with 0, whether it is finite.
#![tactic(auto)]

mod constants;
mod sign;

pub use constants::{EPSILON, HALF, LN_2, LN_2_HIGH, LN_2_LOW, ONE, PI, TWO, ZERO};
pub use sign::{abs, is_finite, max_zero};
