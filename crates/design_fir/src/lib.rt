// 002 fir.rs: the windowed-sinc low pass. Its FirFilter is `fir::TapRecord`, and its checks stand in the crate design_checks.
// Its functions and parameters have the Rust's names.
#![tactic(auto)]

ghost use Rattle.std.specs.Prelude.{◌≡◌, ◌<◌, ◌≤◌, ◌++◌, length, drop, map};
ghost use Rattle.scalar.specs.Operators.{◌⊘◌};
ghost use Rattle.limits.specs.Zero.{plus_zero};
ghost use Rattle.limits.specs.Limits.{max_taps};
ghost use Rattle.fir_theory.specs.Fir.{taps_by_default};
ghost use Rattle.fir.specs.View.{made_view};
ghost use Rattle.lists.specs.Lists.{up_to};
ghost use Rattle.design_fir.specs.Fir.{code_of, window_of, weight_of, sinc_of, tap_of, total_from, normalised_by, fir_taps, fir_lp};

use design_checks::validate_fir;
use fir::TapRecord;
use runs::{Refusal, by_default};
use scalar::PI;

// The windows that a design may ask for.
#[derive(Clone, Copy, Debug, PartialEq, Eq)]
pub enum WindowType {
    Rectangular,
    Hamming,
    Hanning,
    Blackman,
}

// 01's code of a window.
impl From<WindowType> for u8 {
    ghost from_gives = { λ window code. code ≡ code_of window };

    fn from(window: WindowType) -> u8 {
        window as u8
    }
}

// The window of 01's code. Of a code that no design has, a call is refused by 13.
impl TryFrom<usize> for WindowType {
    type Error = Refusal;

    ghost try_from_gives = { λ code window. window ≡ window_of code };

    fn try_from(code: usize) -> Result<Self, Refusal> {
        match code {
            0 => Ok(WindowType::Rectangular),
            1 => Ok(WindowType::Hamming),
            2 => Ok(WindowType::Hanning),
            3 => Ok(WindowType::Blackman),
            _ => Err(Refusal::BadCall),
        }
    }
}

// The window's weight at i of n places, case by case as 01 has it.
#[tactic(auto, unfolding(crate::specs::Fir::weight_of))]
pub fn window_weight(window: WindowType, i: f64, n: f64, two_pi: f64) -> f64
    ensures { result ≡ weight_of window i n two_pi }
{
    match window {
        WindowType::Rectangular => 1.0,
        WindowType::Hamming => 0.54 - 0.46 * elementary::cos(two_pi * i / (n - 1.0)),
        WindowType::Hanning => 0.5 * (1.0 - elementary::cos(two_pi * i / (n - 1.0))),
        WindowType::Blackman => {
            let arg = two_pi * i / (n - 1.0);
            0.42 - 0.5 * elementary::cos(arg) + 0.08 * elementary::cos(2.0 * arg)
        }
    }
}

// The ideal low pass at n from its middle.
#[tactic(auto, unfolding(crate::specs::Fir::sinc_of))]
fn sinc(cutoff: f64, n: f64) -> f64
    ensures { result ≡ sinc_of cutoff n }
{
    if n == 0.0 {
        return 2.0 * cutoff;
    }
    elementary::sin(2.0 * PI * cutoff * n) / (PI * n)
}

// Tap i, before all are divided by their sum.
#[tactic(auto, unfolding(crate::specs::Fir::tap_of))]
fn tap(window: WindowType, taps: usize, cutoff: f64, i: usize) -> f64
    requires few { taps ≤ max_taps }
    requires place { i < taps }
    ensures { result ≡ tap_of window taps cutoff i }
{
    let i_f = i as f64;
    let m = ((taps - 1) as f64) * 0.5;
    let h_ideal = sinc(cutoff, i_f - m);
    let w = window_weight(window, i_f, taps as f64, 2.0 * PI);
    h_ideal * w
}

// All of them.
fn windowed(window: WindowType, cutoff: f64, coeffs: &mut [f64])
    requires { length coeffs.old ≤ max_taps }
    ensures { coeffs.new ≡ up_to (tap_of window (length coeffs.old) cutoff) (length coeffs.old) }
{
    let taps = coeffs.len();
    for (i, c) in coeffs.iter_mut().enumerate() {
        *c = tap(window, taps, cutoff, i);
    }
}

// Their sum, added to +0 one after the other.
fn sum_of(coeffs: &[f64]) -> f64
    ensures { result ≡ total_from plus_zero coeffs.now }
{
    coeffs.iter().fold(0.0, |sum, c| sum + *c)
}

// Each divided by the sum.
fn divide(coeffs: &mut [f64], sum: f64)
    ensures { coeffs.new ≡ map (λ c. c ⊘ sum) coeffs.old }
{
    for c in coeffs.iter_mut() {
        *c = *c / sum;
    }
}

// Each divided by their sum, where its magnitude exceeds EPSILON.
#[tactic(auto, unfolding(crate::specs::Fir::normalised_by))]
fn normalise(coeffs: &mut [f64])
    ensures { coeffs.new ≡ normalised_by (total_from plus_zero coeffs.old) coeffs.old }
{
    let sum = sum_of(coeffs);
    if scalar::abs(sum) > scalar::EPSILON {
        divide(coeffs, sum);
    }
}

// The taps of a design, in the first places. The places come whole: with a slice of a local array in their place the proof of the
// design did not close.
#[tactic(auto, unfolding(crate::specs::Fir::fir_taps))]
fn put_taps(window: WindowType, taps: usize, cutoff: f64, places: &mut [f64])
    requires few { taps ≤ max_taps }
    requires room { taps ≤ length places.old }
    ensures { places.new ≡ fir_taps window taps cutoff ++ drop taps places.old }
{
    let coeffs = &mut places[..taps];
    windowed(window, cutoff, coeffs);
    normalise(coeffs);
}

// A low pass of 1 to 64 taps, its cutoff a share of the rate. Taps that are not all finite are refused by 25, after every other check.
#[tactic(auto, using(crate::proofs::Taps::default_viewed))]
pub fn design_fir_lp(taps: usize, cutoff: f64, window: WindowType) -> Result<TapRecord, Refusal>
    ensures { made_view result ≡ taps_by_default max_taps (fir_lp taps cutoff window) }
{
    by_default(design_fir_lp_raw(taps, cutoff, window))
}

// The same of any taps, finite or not: the Rust's design.
#[tactic(auto, using(runs::proofs::Default::number_above_zero), unfolding(crate::specs::Fir::fir_lp, fir_theory::specs::Fir::holding))]
pub fn design_fir_lp_raw(taps: usize, cutoff: f64, window: WindowType) -> Result<TapRecord, Refusal>
    ensures { made_view result ≡ fir_lp taps cutoff window }
{
    validate_fir(taps, cutoff)?;
    let mut coeffs = [0.0; TapRecord::MAX_TAPS];
    put_taps(window, taps, cutoff, &mut coeffs);
    Ok(TapRecord {
        taps: coeffs,
        length: taps,
        window: u8::from(window),
        ..TapRecord::blank()
    })
}
