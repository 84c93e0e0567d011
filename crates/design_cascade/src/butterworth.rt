// 000 butterworth.rs: the Butterworth low pass, high pass and band pass. Its checks stand in the crate design_checks, its pole
// formulas in the crates design_poles and design_bandpass, and its sections in the crate sections. The designs are raw forms:
// `defaults` has the default ones. Functions and parameters are the Rust's own, also where two functions differ in a prototype
// alone.
ghost use Rattle.std.specs.Prelude.{◌≡◌, map, ◌/◌};
ghost use Rattle.limits.specs.Limits.{max_sections};
ghost use Rattle.elementary.specs.Trigonometric.{sin_of, cos_of};
ghost use Rattle.sections.specs.View.{section_view};
ghost use Rattle.cascade.specs.View.{cascade_view};
ghost use Rattle.design_bandpass.specs.View.{pair_view};
ghost use Rattle.design_cascade.specs.Design.{padded};
ghost use Rattle.design_cascade.specs.Butterworth.{angle_of, warped};
ghost use Rattle.design_cascade.specs.LowPass.{butterworth_lp, butterworth_hp};
ghost use Rattle.design_cascade.specs.BandPass.{bp_pair_of, bp_up_to, bp_sections, bp_cascade, butterworth_bp};
ghost use Rattle.design_cascade.specs.View.{design_view};

use super::order::{Order, PoleIndex};
use super::prototype::Prototype;
use cascade::Cascade;
use design_checks::{validate_band, validate_params};
use limits::{MAX_BAND_ORDER, MAX_SECTIONS};
use runs::Refusal;
use scalar::PI;
use sections::{FirstOrder, Section};

// The angle of a pole pair: PI × ((2(m + 1) + N − 1)/(2N)).
#[tactic(auto, unfolding(crate::specs::Butterworth::angle_of))]
fn angle(pair: PoleIndex) -> f64
    ensures { result ≡ angle_of pair.order pair.m }
{
    PI * (((2 * (pair.m + 1) + pair.order - 1) as f64) / ((2 * pair.order) as f64))
}

// σ and ω of a pole pair: the cosine and the sine of its angle.
pub(crate) fn pole(pair: PoleIndex) -> (f64, f64)
    ensures { result ≡ (cos_of (angle_of pair.order pair.m), sin_of (angle_of pair.order pair.m)) }
{
    let a = angle(pair);
    (elementary::cos(a), elementary::sin(a))
}

// k = tan((PI × cutoff)/rate).
#[tactic(auto, unfolding(crate::specs::Butterworth::warped))]
pub(crate) fn warp(cutoff: f64, sample_rate: f64) -> f64
    ensures { result ≡ warped cutoff sample_rate }
{
    elementary::tan(PI * cutoff / sample_rate)
}

// A low pass of order 1 to 8.
#[tactic(auto, unfolding(crate::specs::LowPass::butterworth_lp))]
pub fn design_butterworth_lp_raw(
    order: usize,
    cutoff: f64,
    sample_rate: f64,
) -> Result<Cascade, Refusal>
    ensures { design_view result ≡ butterworth_lp order cutoff sample_rate }
{
    validate_params(cutoff, sample_rate, order)?;
    let k = warp(cutoff, sample_rate);
    Ok(Prototype::ButterworthLow { k }.cascade(Order { value: order }))
}

// A high pass of order 1 to 8.
#[tactic(auto, unfolding(crate::specs::LowPass::butterworth_hp))]
pub fn design_butterworth_hp_raw(
    order: usize,
    cutoff: f64,
    sample_rate: f64,
) -> Result<Cascade, Refusal>
    ensures { design_view result ≡ butterworth_hp order cutoff sample_rate }
{
    validate_params(cutoff, sample_rate, order)?;
    let k = warp(cutoff, sample_rate);
    Ok(Prototype::ButterworthHigh { k }.cascade(Order { value: order }))
}

// The two sections of a pole pair. bw and ω0² stand side by side as in the Rust's formulas (`design_bandpass`).
#[tactic(auto, unfolding(crate::specs::BandPass::bp_pair_of))]
fn bp_pair(pair: PoleIndex, bw: f64, omega0_sq: f64) -> (Section, Section)
    ensures { pair_view result ≡ bp_pair_of pair.order bw omega0_sq pair.m }
{
    let (sigma, omega_im) = pole(pair);
    design_bandpass::bp_biquads_from_lp_pole(sigma, omega_im, bw, omega0_sq)
}

// The sections of all pole pairs, two each, and blank ones behind them. They are put by their places: what is written through
// `chunks_exact_mut` is not known behind the loop.
fn bp_sections_from_pairs(
    order: Order<MAX_BAND_ORDER>,
    bw: f64,
    omega0_sq: f64,
) -> [Section; MAX_SECTIONS]
    ensures { map section_view result ≡ padded max_sections (bp_up_to order.value bw omega0_sq (order.value / 2)) }
{
    let mut sections = [Section::blank(); MAX_SECTIONS];
    for m in 0..order.value / 2 {
        let pair = PoleIndex {
            order: order.value,
            m,
        };
        let (bq1, bq2) = bp_pair(pair, bw, omega0_sq);
        sections[2 * m] = bq1;
        sections[2 * m + 1] = bq2;
    }
    sections
}

// Those, and that of the real pole, which an odd order has.
fn bp_sections(order: Order<MAX_BAND_ORDER>, bw: f64, omega0_sq: f64) -> [Section; MAX_SECTIONS]
    ensures { map section_view result ≡ padded max_sections (bp_sections order.value bw omega0_sq) }
{
    let mut sections = bp_sections_from_pairs(order, bw, omega0_sq);
    if order.value % 2 == 1 {
        sections[order.value - 1] = design_bandpass::bp_biquad_from_lp_real_pole(bw, omega0_sq);
    }
    sections
}

#[tactic(auto, unfolding(crate::specs::BandPass::bp_cascade))]
fn bp_cascade(order: Order<MAX_BAND_ORDER>, omega_l: f64, omega_h: f64) -> Cascade
    ensures { cascade_view result ≡ bp_cascade order.value omega_l omega_h }
{
    Cascade {
        sections: bp_sections(order, omega_h - omega_l, omega_l * omega_h),
        count: order.value,
        first: FirstOrder::blank(),
        has_first: false,
        clouded: false,
    }
}

// A band pass of order 1 to 4: as many sections.
#[tactic(auto, unfolding(crate::specs::BandPass::butterworth_bp))]
pub fn design_butterworth_bp_raw(
    order: usize,
    low: f64,
    high: f64,
    sample_rate: f64,
) -> Result<Cascade, Refusal>
    ensures { design_view result ≡ butterworth_bp order low high sample_rate }
{
    validate_band(low, high, sample_rate, order)?;
    let omega_l = warp(low, sample_rate);
    let omega_h = warp(high, sample_rate);
    Ok(bp_cascade(Order { value: order }, omega_l, omega_h))
}
