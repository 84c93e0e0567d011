// The cascade designs. The raw forms, which are the Rust's functions, stand in files of the Rust's names; `defaults` has the
// default forms over them.
#![tactic(auto)]

mod butterworth;
mod chebyshev;
mod defaults;
mod order;
mod prototype;

pub use butterworth::{
    design_butterworth_bp_raw, design_butterworth_hp_raw, design_butterworth_lp_raw,
};
pub use chebyshev::{design_chebyshev1_lp_raw, design_chebyshev2_lp_raw};
pub use defaults::{
    design_butterworth_bp, design_butterworth_hp, design_butterworth_lp, design_chebyshev1_lp,
    design_chebyshev2_lp,
};
