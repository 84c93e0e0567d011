// Calls of the C interface on a record that a caller lends in slices: one sample, a block from an input to an output, a block
// in place, and a reset, for a cascade and for a tap record alike.
#![tactic(auto)]

mod calls;
mod cascades;
mod filters;
mod lent;

pub use calls::{block, block_in_place, reset, step};
pub use cascades::LentCascade;
pub use filters::LentTaps;
pub use lent::Lent;
