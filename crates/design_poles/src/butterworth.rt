// The pole formulas of 000 butterworth.rs, under the Rust's names: low pass and high pass. Those of the band pass are the
// crate design_bandpass.
ghost use Rattle.std.specs.Prelude.{◌≡◌};
ghost use Rattle.sections.specs.View.{section_view, first_view};
ghost use Rattle.design_poles.specs.Butterworth.{denominator_of, lp_biquad, hp_biquad, lp_first, hp_first};
ghost use Rattle.design_poles.specs.View.{denominator_view};

use sections::{FirstOrder, Section};

// The denominator of a section that is no band pass: a0, by which the others are divided, and a1 and a2 after that.
#[derive(Clone, Copy)]
pub struct Denominator {
    pub a0: f64,
    pub a1: f64,
    pub a2: f64,
}

#[tactic(auto, unfolding(crate::specs::Butterworth::denominator_of))]
pub(crate) fn denominator_of(sigma: f64, omega_im: f64, k: f64) -> Denominator
    ensures { denominator_view result ≡ denominator_of sigma omega_im k }
{
    let p_sq = sigma * sigma + omega_im * omega_im;
    let k2 = k * k;
    let a0 = 1.0 - 2.0 * sigma * k + p_sq * k2;
    let a1_z = 2.0 * (p_sq * k2 - 1.0);
    let a2 = 1.0 + 2.0 * sigma * k + p_sq * k2;
    Denominator {
        a0,
        a1: a1_z / a0,
        a2: a2 / a0,
    }
}

// The low-pass section of the prototype's pole pair σ ± jω.
#[tactic(auto, unfolding(crate::specs::Butterworth::lp_biquad))]
pub fn lp_biquad_from_pole(sigma: f64, omega_im: f64, k: f64) -> Section
    ensures { section_view result ≡ lp_biquad sigma omega_im k }
{
    let d = denominator_of(sigma, omega_im, k);
    let b_all = (k * k) / d.a0;
    Section::new(b_all, 2.0 * b_all, b_all, d.a1, d.a2)
}

// The high-pass section of the prototype's pole pair.
#[tactic(auto, unfolding(crate::specs::Butterworth::hp_biquad))]
pub fn hp_biquad_from_pole(sigma: f64, omega_im: f64, k: f64) -> Section
    ensures { section_view result ≡ hp_biquad sigma omega_im k }
{
    let d = denominator_of(sigma, omega_im, k);
    Section::new(1.0 / d.a0, -2.0 / d.a0, 1.0 / d.a0, d.a1, d.a2)
}

// The low-pass part of the real pole.
#[tactic(auto, unfolding(crate::specs::Butterworth::lp_first))]
pub fn lp_first_order_from_pole(k: f64) -> FirstOrder
    ensures { first_view result ≡ lp_first k }
{
    let inv = 1.0 / (k + 1.0);
    FirstOrder::new(k * inv, k * inv, (k - 1.0) * inv)
}

// The high-pass part of the real pole.
#[tactic(auto, unfolding(crate::specs::Butterworth::hp_first))]
pub fn hp_first_order_from_pole(k: f64) -> FirstOrder
    ensures { first_view result ≡ hp_first k }
{
    let inv = 1.0 / (k + 1.0);
    FirstOrder::new(inv, -inv, (k - 1.0) * inv)
}
