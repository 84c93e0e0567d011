// The pole formulas of 001 chebyshev.rs, under the Rust's names: the low passes of type I and type II.
ghost use Rattle.std.specs.Prelude.{◌≡◌};
ghost use Rattle.sections.specs.View.{section_view, first_view};
ghost use Rattle.design_poles.specs.Chebyshev.{cheb1_biquad, cheb2_biquad, cheb_first};

use super::butterworth::denominator_of;
use sections::{FirstOrder, Section};

// The section of the type I pole pair σ ± jω.
#[tactic(auto, unfolding(crate::specs::Chebyshev::cheb1_biquad))]
pub fn cheb1_lp_biquad(sigma: f64, omega_im: f64, k: f64) -> Section
    ensures { section_view result ≡ cheb1_biquad sigma omega_im k }
{
    let d = denominator_of(sigma, omega_im, k);
    let pk2 = (sigma * sigma + omega_im * omega_im) * (k * k);
    let b_all = pk2 / d.a0;
    Section::new(b_all, 2.0 * b_all, b_all, d.a1, d.a2)
}

// The part of the type I real pole σ.
#[tactic(auto, unfolding(crate::specs::Chebyshev::cheb_first))]
pub fn cheb1_lp_first_order(sigma: f64, k: f64) -> FirstOrder
    ensures { first_view result ≡ cheb_first sigma k }
{
    let abs_sigma = scalar::max_zero(-sigma);
    let k_abs = k * abs_sigma;
    let inv = 1.0 / (1.0 + k_abs);
    FirstOrder::new(k_abs * inv, k_abs * inv, (k_abs - 1.0) * inv)
}

// The section of the type II pole pair σ ± jω and the zeros ±j·zero_im.
#[tactic(auto, unfolding(crate::specs::Chebyshev::cheb2_biquad))]
pub fn cheb2_lp_biquad(sigma: f64, omega_im: f64, zero_im: f64, k: f64) -> Section
    ensures { section_view result ≡ cheb2_biquad sigma omega_im zero_im k }
{
    let d = denominator_of(sigma, omega_im, k);
    let p_sq = sigma * sigma + omega_im * omega_im;
    let z_sq = zero_im * zero_im;
    let zk2 = z_sq * (k * k);
    let pz_ratio = p_sq / z_sq;
    let b0 = pz_ratio * (1.0 + zk2) / d.a0;
    let b1 = pz_ratio * 2.0 * (zk2 - 1.0) / d.a0;
    Section::new(b0, b1, b0, d.a1, d.a2)
}

// The part of the type II real pole σ, by the formula of type I.
pub fn cheb2_lp_first_order(sigma: f64, k: f64) -> FirstOrder
    ensures { first_view result ≡ cheb_first sigma k }
{
    cheb1_lp_first_order(sigma, k)
}
