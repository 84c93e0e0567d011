// sin, cos, tan, exp and powers of ten, each by the written rule of 01 "Elementary functions": the argument less the
// nearest multiple of a quarter turn or of ln 2, and a series in what is left.
#![tactic(auto)]

mod exponential;
mod trigonometric;
mod whole;

pub use exponential::{exp, pow10};
pub use trigonometric::{cos, sin, tan};
