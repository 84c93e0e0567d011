// 02's Q-3: the default form of each design. It refuses by 25, after every other check, a cascade whose coefficients are not all finite;
// any other result is that of the raw form, which is the Rust's design.
#![tactic(auto, using(crate::proofs::Laws::default_viewed))]

ghost use Rattle.std.specs.Prelude.{◌≡◌};
ghost use Rattle.design_cascade.specs.Design.{cascade_by_default};
ghost use Rattle.design_cascade.specs.LowPass.{butterworth_lp, butterworth_hp, chebyshev1_lp, chebyshev2_lp};
ghost use Rattle.design_cascade.specs.BandPass.{butterworth_bp};
ghost use Rattle.design_cascade.specs.View.{design_view};

use super::butterworth::{
    design_butterworth_bp_raw, design_butterworth_hp_raw, design_butterworth_lp_raw,
};
use super::chebyshev::{design_chebyshev1_lp_raw, design_chebyshev2_lp_raw};
use cascade::Cascade;
use runs::{Refusal, by_default};

// A low pass of order 1 to 8.
pub fn design_butterworth_lp(
    order: usize,
    cutoff: f64,
    sample_rate: f64,
) -> Result<Cascade, Refusal>
    ensures { design_view result ≡ cascade_by_default (butterworth_lp order cutoff sample_rate) }
{
    by_default(design_butterworth_lp_raw(order, cutoff, sample_rate))
}

// A high pass of order 1 to 8.
pub fn design_butterworth_hp(
    order: usize,
    cutoff: f64,
    sample_rate: f64,
) -> Result<Cascade, Refusal>
    ensures { design_view result ≡ cascade_by_default (butterworth_hp order cutoff sample_rate) }
{
    by_default(design_butterworth_hp_raw(order, cutoff, sample_rate))
}

// A band pass of order 1 to 4: as many sections.
pub fn design_butterworth_bp(
    order: usize,
    low: f64,
    high: f64,
    sample_rate: f64,
) -> Result<Cascade, Refusal>
    ensures { design_view result ≡ cascade_by_default (butterworth_bp order low high sample_rate) }
{
    by_default(design_butterworth_bp_raw(order, low, high, sample_rate))
}

// A type I low pass of order 1 to 8, with its ripple in decibels.
pub fn design_chebyshev1_lp(
    order: usize,
    cutoff: f64,
    ripple_db: f64,
    sample_rate: f64,
) -> Result<Cascade, Refusal>
    ensures { design_view result ≡ cascade_by_default (chebyshev1_lp order cutoff ripple_db sample_rate) }
{
    by_default(design_chebyshev1_lp_raw(order, cutoff, ripple_db, sample_rate))
}

// A type II low pass of order 1 to 8, with its stop band's attenuation in decibels.
pub fn design_chebyshev2_lp(
    order: usize,
    cutoff: f64,
    stopband_db: f64,
    sample_rate: f64,
) -> Result<Cascade, Refusal>
    ensures { design_view result ≡ cascade_by_default (chebyshev2_lp order cutoff stopband_db sample_rate) }
{
    by_default(design_chebyshev2_lp_raw(order, cutoff, stopband_db, sample_rate))
}
