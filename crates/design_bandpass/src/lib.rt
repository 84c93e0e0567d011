// From a pole, or a pair of them, to the band-pass sections that have it: the formulas of 000 butterworth.rs under the
// Rust's names, operation by operation in the Rust's order.
#![tactic(auto)]

ghost use Rattle.std.specs.Prelude.{◌≡◌};
ghost use Rattle.sections.specs.View.{section_view};
ghost use Rattle.design_bandpass.specs.BandPass.{band_biquad, bp_biquad, bp_pair, imaginary_root, bp_real};
ghost use Rattle.design_bandpass.specs.View.{pair_view};

use sections::Section;

// The band-pass section of two poles by their sum and product.
#[tactic(auto, unfolding(crate::specs::BandPass::band_biquad))]
fn bp_biquad_from_sum_and_product(sum: f64, product: f64, bw: f64) -> Section
    ensures { section_view result ≡ band_biquad sum product bw }
{
    let a0_d = 1.0 - sum + product;
    let a1_d = -2.0 + 2.0 * product;
    let a2_d = 1.0 + sum + product;
    Section::new(bw / a0_d, 0.0, -(bw / a0_d), a1_d / a0_d, a2_d / a0_d)
}

// The band-pass section of the pole pair σ ± jω.
#[tactic(auto, unfolding(crate::specs::BandPass::bp_biquad))]
pub fn bp_biquad_from_bp_pole_pair(sigma: f64, omega_im: f64, bw: f64) -> Section
    ensures { section_view result ≡ bp_biquad sigma omega_im bw }
{
    bp_biquad_from_sum_and_product(2.0 * sigma, sigma * sigma + omega_im * omega_im, bw)
}

// The imaginary part of the root of a complex number, from its own imaginary part and the root's real part.
#[tactic(auto, unfolding(crate::specs::BandPass::imaginary_root))]
fn imaginary_root(d_im: f64, d_sqrt_re: f64) -> f64
    ensures { result ≡ imaginary_root d_im d_sqrt_re }
{
    if scalar::abs(d_im) > 0.0 {
        d_im / (2.0 * d_sqrt_re)
    } else {
        0.0
    }
}

// The two band-pass sections of the low-pass prototype's pole pair σ ± jω.
#[tactic(auto, unfolding(crate::specs::BandPass::bp_pair))]
pub fn bp_biquads_from_lp_pole(
    sigma: f64,
    omega_im: f64,
    bw: f64,
    omega0_sq: f64,
) -> (Section, Section)
    ensures { pair_view result ≡ bp_pair sigma omega_im bw omega0_sq }
{
    let half_bw = bw * 0.5;
    let p = half_bw * sigma;
    let q = half_bw * omega_im;
    let d_re = p * p - q * q - omega0_sq;
    let d_im = 2.0 * p * q;
    let d_mag = ieee::sqrt(d_re * d_re + d_im * d_im);
    let d_sqrt_re = ieee::sqrt((d_mag + d_re) * 0.5);
    let d_sqrt_im = imaginary_root(d_im, d_sqrt_re);
    (
        bp_biquad_from_bp_pole_pair(p + d_sqrt_re, q + d_sqrt_im, bw),
        bp_biquad_from_bp_pole_pair(p - d_sqrt_re, q - d_sqrt_im, bw),
    )
}

// The band-pass section of the low-pass prototype's real pole.
#[tactic(auto, unfolding(crate::specs::BandPass::bp_real))]
pub fn bp_biquad_from_lp_real_pole(bw: f64, omega0_sq: f64) -> Section
    ensures { section_view result ≡ bp_real bw omega0_sq }
{
    let half_bw = bw * 0.5;
    let disc = half_bw * half_bw - omega0_sq;
    if disc >= 0.0 {
        let sq = ieee::sqrt(disc);
        let s1 = -half_bw + sq;
        let s2 = -half_bw - sq;
        return bp_biquad_from_sum_and_product(s1 + s2, s1 * s2, bw);
    }
    let sq = ieee::sqrt(-disc);
    bp_biquad_from_bp_pole_pair(-half_bw, sq, bw)
}
