// The designs of both kinds, and ready-made taps, into slices. Coefficients that are not all finite are refused by 25.
ghost use Rattle.std.specs.Prelude.{◌≡◌};
ghost use Rattle.runs.specs.View.{refusal_in};
ghost use Rattle.fir_theory.specs.Fir.{from_coeffs, taps_by_default};
ghost use Rattle.limits.specs.Limits.{max_taps};
ghost use Rattle.design_cascade.specs.Design.{cascade_by_default};
ghost use Rattle.design_cascade.specs.LowPass.{butterworth_lp, butterworth_hp, chebyshev1_lp, chebyshev2_lp};
ghost use Rattle.design_cascade.specs.BandPass.{butterworth_bp};
ghost use Rattle.design_fir.specs.Fir.{fir_lp};
ghost use Rattle.c_designs.specs.Designs.{design_call, made_call, fir_call};

use c_designs::{hand_out, hand_out_coeffs, hand_out_taps};
use design_cascade::{
    design_butterworth_bp, design_butterworth_hp, design_butterworth_lp, design_chebyshev1_lp,
    design_chebyshev2_lp,
};
use design_fir::{WindowType, design_fir_lp};
use runs::{Refusal, number_in};

// A Butterworth low pass.
#[unsafe(no_mangle)]
pub extern "C" fn pulse_design_butterworth_lp(
    order: usize,
    cutoff: f64,
    sample_rate: f64,
    numbers: &mut [f64],
    counts: &mut [usize],
) -> u8
    ensures { record { refusal = result; numbers = numbers.new; counts = counts.new }
        ≡ design_call (cascade_by_default (butterworth_lp order cutoff sample_rate)) numbers.old counts.old }
{
    let design = design_butterworth_lp(order, cutoff, sample_rate);
    number_in(hand_out(design, numbers, counts))
}

// A Butterworth high pass.
#[unsafe(no_mangle)]
pub extern "C" fn pulse_design_butterworth_hp(
    order: usize,
    cutoff: f64,
    sample_rate: f64,
    numbers: &mut [f64],
    counts: &mut [usize],
) -> u8
    ensures { record { refusal = result; numbers = numbers.new; counts = counts.new }
        ≡ design_call (cascade_by_default (butterworth_hp order cutoff sample_rate)) numbers.old counts.old }
{
    let design = design_butterworth_hp(order, cutoff, sample_rate);
    number_in(hand_out(design, numbers, counts))
}

// A Butterworth band pass.
#[unsafe(no_mangle)]
pub extern "C" fn pulse_design_butterworth_bp(
    order: usize,
    low: f64,
    high: f64,
    sample_rate: f64,
    numbers: &mut [f64],
    counts: &mut [usize],
) -> u8
    ensures { record { refusal = result; numbers = numbers.new; counts = counts.new }
        ≡ design_call (cascade_by_default (butterworth_bp order low high sample_rate)) numbers.old counts.old }
{
    let design = design_butterworth_bp(order, low, high, sample_rate);
    number_in(hand_out(design, numbers, counts))
}

// A Chebyshev I low pass.
#[unsafe(no_mangle)]
pub extern "C" fn pulse_design_chebyshev1_lp(
    order: usize,
    cutoff: f64,
    ripple_db: f64,
    sample_rate: f64,
    numbers: &mut [f64],
    counts: &mut [usize],
) -> u8
    ensures { record { refusal = result; numbers = numbers.new; counts = counts.new }
        ≡ design_call (cascade_by_default (chebyshev1_lp order cutoff ripple_db sample_rate)) numbers.old counts.old }
{
    let design = design_chebyshev1_lp(order, cutoff, ripple_db, sample_rate);
    number_in(hand_out(design, numbers, counts))
}

// A Chebyshev II low pass.
#[unsafe(no_mangle)]
pub extern "C" fn pulse_design_chebyshev2_lp(
    order: usize,
    cutoff: f64,
    stopband_db: f64,
    sample_rate: f64,
    numbers: &mut [f64],
    counts: &mut [usize],
) -> u8
    ensures { record { refusal = result; numbers = numbers.new; counts = counts.new }
        ≡ design_call (cascade_by_default (chebyshev2_lp order cutoff stopband_db sample_rate)) numbers.old counts.old }
{
    let design = design_chebyshev2_lp(order, cutoff, stopband_db, sample_rate);
    number_in(hand_out(design, numbers, counts))
}

// A FIR low pass, its cutoff a share of the rate.
#[unsafe(no_mangle)]
pub extern "C" fn pulse_design_fir_lp(
    n: usize,
    cutoff: f64,
    window: usize,
    taps: &mut [f64],
    samples: &mut [f64],
    counts: &mut [usize],
) -> u8
    ensures { record { refusal = result; taps = taps.new; samples = samples.new; counts = counts.new }
        ≡ fir_call taps.old samples.old counts.old (λ w. taps_by_default max_taps (fir_lp n cutoff w)) window }
{
    number_in(fir_lp(n, cutoff, window, taps, samples, counts))
}

// A function of its own for the `?`: a closure behind `and_then` takes stack for each record that it hands on. Each form has one: one
// for both would have a contract over whatever design it is given, and be no plainer.
fn fir_lp(
    n: usize,
    cutoff: f64,
    window: usize,
    taps: &mut [f64],
    samples: &mut [f64],
    counts: &mut [usize],
) -> Result<(), Refusal>
    ensures { record { refusal = refusal_in result; taps = taps.new; samples = samples.new; counts = counts.new }
        ≡ fir_call taps.old samples.old counts.old (λ w. taps_by_default max_taps (fir_lp n cutoff w)) window }
{
    let window = WindowType::try_from(window)?;
    hand_out_taps(design_fir_lp(n, cutoff, window), taps, samples, counts)
}

// Ready-made taps.
#[unsafe(no_mangle)]
pub extern "C" fn pulse_fir_from_coeffs(
    coeffs: &[f64],
    taps: &mut [f64],
    samples: &mut [f64],
    counts: &mut [usize],
) -> u8
    ensures { record { refusal = result; taps = taps.new; samples = samples.new; counts = counts.new }
        ≡ made_call taps.old samples.old counts.old (taps_by_default max_taps (from_coeffs max_taps coeffs.now)) }
{
    number_in(hand_out_coeffs(coeffs, taps, samples, counts))
}
