// 001 chebyshev.rs: the Chebyshev low passes of type I and type II. Its arcsinh is `hyperbolic::arcsinh`, its checks stand in
// the crate design_checks, its pole formulas in the crate design_poles, and its sections in the crate sections. The designs are
// raw forms: `defaults` has the default ones. Functions and parameters are the Rust's own.
ghost use Rattle.std.specs.Prelude.{◌≡◌};
ghost use Rattle.sections.specs.View.{section_view};
ghost use Rattle.design_cascade.specs.Chebyshev.{theta_of, pole_of, cheb1_pair, cheb2_pair, epsilon_of, ellipse_of, cheb1_prototype, cheb2_prototype};
ghost use Rattle.design_cascade.specs.LowPass.{chebyshev1_lp, chebyshev2_lp};
ghost use Rattle.design_cascade.specs.View.{pole_pair_view, design_view};

use super::butterworth::warp;
use super::order::{Order, PoleIndex};
use super::prototype::{Ellipse, Prototype};
use cascade::Cascade;
use design_checks::validate_chebyshev;
use limits::MAX_ORDER;
use runs::Refusal;
use scalar::PI;
use sections::Section;

// A pole pair of type I, and the cosine of its angle.
#[derive(Clone, Copy)]
struct PolePair {
    sigma: f64,
    omega_im: f64,
    cos_theta: f64,
}

// The angle of a pole pair: (PI × (2m + 1))/(2 × N).
#[tactic(auto, unfolding(crate::specs::Chebyshev::theta_of))]
fn theta(pair: PoleIndex) -> f64
    ensures { result ≡ theta_of pair.order pair.m }
{
    PI * ((2 * pair.m + 1) as f64) / (2.0 * (pair.order as f64))
}

#[tactic(auto, unfolding(crate::specs::Chebyshev::pole_of))]
fn pole_pair(pair: PoleIndex, ellipse: Ellipse) -> PolePair
    ensures { pole_pair_view result ≡ pole_of pair.order pair.m ellipse }
{
    let t = theta(pair);
    let sin_theta = elementary::sin(t);
    let cos_theta = elementary::cos(t);
    PolePair {
        sigma: -ellipse.sinh_a * sin_theta,
        omega_im: ellipse.cosh_a * cos_theta,
        cos_theta,
    }
}

// The type I section of a pole pair.
#[tactic(auto, unfolding(crate::specs::Chebyshev::cheb1_pair))]
pub(crate) fn cheb1_section(pair: PoleIndex, ellipse: Ellipse, k: f64) -> Section
    ensures { section_view result ≡ cheb1_pair pair.order pair.m ellipse k }
{
    let p = pole_pair(pair, ellipse);
    design_poles::cheb1_lp_biquad(p.sigma, p.omega_im, k)
}

// The type II section of a pole pair: the type I pole inverted, and the zeros ±j/|cos θ|.
#[tactic(auto, unfolding(crate::specs::Chebyshev::cheb2_pair))]
pub(crate) fn cheb2_section(pair: PoleIndex, ellipse: Ellipse, k: f64) -> Section
    ensures { section_view result ≡ cheb2_pair pair.order pair.m ellipse k }
{
    let p = pole_pair(pair, ellipse);
    let mag_sq = p.sigma * p.sigma + p.omega_im * p.omega_im;
    let zero_im = 1.0 / scalar::abs(p.cos_theta);
    design_poles::cheb2_lp_biquad(p.sigma / mag_sq, -p.omega_im / mag_sq, zero_im, k)
}

// ε = √(10^(dB/10) − 1).
#[tactic(auto, unfolding(crate::specs::Chebyshev::epsilon_of))]
fn epsilon(db: f64) -> f64
    ensures { result ≡ epsilon_of db }
{
    ieee::sqrt(elementary::pow10(db / 10.0) - 1.0)
}

// a = arcsinh(x)/N.
#[tactic(auto, unfolding(crate::specs::Chebyshev::ellipse_of))]
fn ellipse(order: Order<MAX_ORDER>, x: f64) -> Ellipse
    ensures { result ≡ ellipse_of order.value x }
{
    let a = hyperbolic::arcsinh(x) / (order.value as f64);
    Ellipse {
        sinh_a: hyperbolic::sinh(a),
        cosh_a: hyperbolic::cosh(a),
    }
}

// A type I low pass of order 1 to 8, with its ripple in decibels.
#[tactic(auto, unfolding(crate::specs::LowPass::chebyshev1_lp, crate::specs::Chebyshev::cheb1_prototype))]
pub fn design_chebyshev1_lp_raw(
    order: usize,
    cutoff: f64,
    ripple_db: f64,
    sample_rate: f64,
) -> Result<Cascade, Refusal>
    ensures { design_view result ≡ chebyshev1_lp order cutoff ripple_db sample_rate }
{
    validate_chebyshev(cutoff, ripple_db, sample_rate, order)?;
    let order = Order { value: order };
    let ellipse = ellipse(order, 1.0 / epsilon(ripple_db));
    let k = warp(cutoff, sample_rate);
    Ok(Prototype::ChebyshevI { ellipse, k }.cascade(order))
}

// A type II low pass of order 1 to 8, with its stop band's attenuation in decibels.
#[tactic(auto, unfolding(crate::specs::LowPass::chebyshev2_lp, crate::specs::Chebyshev::cheb2_prototype))]
pub fn design_chebyshev2_lp_raw(
    order: usize,
    cutoff: f64,
    stopband_db: f64,
    sample_rate: f64,
) -> Result<Cascade, Refusal>
    ensures { design_view result ≡ chebyshev2_lp order cutoff stopband_db sample_rate }
{
    validate_chebyshev(cutoff, stopband_db, sample_rate, order)?;
    let order = Order { value: order };
    let ellipse = ellipse(order, epsilon(stopband_db));
    let k = warp(cutoff, sample_rate);
    Ok(Prototype::ChebyshevII { ellipse, k }.cascade(order))
}
