// From a pole, or a pair of them, to the low-pass or high-pass section or first-order part that has it: the formulas of
// 000 and 001, operation by operation in the Rust's order. Functions and parameters are the Rust's own, σ and ω of a pair beside k
// among them.
#![tactic(auto)]

mod butterworth;
mod chebyshev;

pub use butterworth::{
    hp_biquad_from_pole, hp_first_order_from_pole, lp_biquad_from_pole, lp_first_order_from_pole,
};
pub use chebyshev::{cheb1_lp_biquad, cheb1_lp_first_order, cheb2_lp_biquad, cheb2_lp_first_order};
