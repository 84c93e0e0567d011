// 01's table of refusals for designs, and the order of checks of each kind of design. `validate_params` is that of 000
// and of 001, with the Rust's parameters, which the other checks keep to.
#![tactic(auto)]

ghost use Rattle.std.specs.Prelude.{◌≡◌};
ghost use Rattle.runs.specs.Refusals.{order_refused};
ghost use Rattle.runs.specs.View.{refusal_in};
ghost use Rattle.design_checks.specs.Checks.{not_positive, cutoff_refused, band_refused, validate_params, validate_band, validate_chebyshev, validate_fir};

use limits::{MAX_BAND_ORDER, MAX_ORDER, MAX_TAPS};
use runs::{Refusal, refuse_if};

// 1: order 0 or above the most.
#[tactic(auto, unfolding(runs::specs::Refusals::order_refused))]
fn order_refused(order: usize, most: usize) -> bool
    ensures { result ≡ order_refused order most }
{
    order == 0 || order > most
}

// 3, of a rate, and 4, of decibels: NaN or at most 0.
#[tactic(auto, unfolding(crate::specs::Checks::not_positive))]
pub fn not_positive(x: f64) -> bool
    ensures { result ≡ not_positive x }
{
    x.is_nan() || x <= 0.0
}

// 2: cutoff NaN, at most 0, or at least the limit: rate × 0.5, and 0.5 for the FIR.
#[tactic(auto, unfolding(crate::specs::Checks::cutoff_refused))]
fn cutoff_refused(cutoff: f64, limit: f64) -> bool
    ensures { result ≡ cutoff_refused cutoff limit }
{
    cutoff.is_nan() || cutoff <= 0.0 || cutoff >= limit
}

// 2, band pass: an edge NaN, low at most 0, high at most low, high at least rate × 0.5.
#[tactic(auto, unfolding(crate::specs::Checks::band_refused))]
fn band_refused(low: f64, high: f64, rate: f64) -> bool
    ensures { result ≡ band_refused low high rate }
{
    low.is_nan() || high.is_nan() || low <= 0.0 || high <= low || high >= rate * 0.5
}

// The checks of the low pass and the high pass, with which the Chebyshev designs begin, in the order 1, 3, 2.
#[tactic(auto, unfolding(crate::specs::Checks::validate_params))]
pub fn validate_params(cutoff: f64, sample_rate: f64, order: usize) -> Result<(), Refusal>
    ensures { refusal_in result ≡ validate_params cutoff sample_rate order }
{
    refuse_if(order_refused(order, MAX_ORDER), Refusal::InvalidOrder)?;
    refuse_if(not_positive(sample_rate), Refusal::InvalidSampleRate)?;
    refuse_if(
        cutoff_refused(cutoff, sample_rate * 0.5),
        Refusal::InvalidFrequency,
    )
}

// The checks of the Chebyshev designs, in the order 1, 3, 2, 4.
#[tactic(auto, unfolding(crate::specs::Checks::validate_params, crate::specs::Checks::validate_chebyshev))]
pub fn validate_chebyshev(
    cutoff: f64,
    db: f64,
    sample_rate: f64,
    order: usize,
) -> Result<(), Refusal>
    ensures { refusal_in result ≡ validate_chebyshev cutoff db sample_rate order }
{
    validate_params(cutoff, sample_rate, order)?;
    refuse_if(not_positive(db), Refusal::InvalidRipple)
}

// The checks of the band pass, in the order 1, 2, 3.
#[tactic(auto, unfolding(crate::specs::Checks::validate_band))]
pub fn validate_band(low: f64, high: f64, sample_rate: f64, order: usize) -> Result<(), Refusal>
    ensures { refusal_in result ≡ validate_band low high sample_rate order }
{
    refuse_if(order_refused(order, MAX_BAND_ORDER), Refusal::InvalidOrder)?;
    refuse_if(
        band_refused(low, high, sample_rate),
        Refusal::InvalidFrequency,
    )?;
    refuse_if(not_positive(sample_rate), Refusal::InvalidSampleRate)
}

// The checks of the FIR, in the order 1, 2.
#[tactic(auto, unfolding(crate::specs::Checks::validate_fir))]
pub fn validate_fir(taps: usize, cutoff: f64) -> Result<(), Refusal>
    ensures { refusal_in result ≡ validate_fir taps cutoff }
{
    refuse_if(order_refused(taps, MAX_TAPS), Refusal::InvalidOrder)?;
    refuse_if(cutoff_refused(cutoff, 0.5), Refusal::InvalidFrequency)
}
