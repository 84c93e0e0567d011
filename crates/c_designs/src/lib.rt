// What a design and ready-made taps hand to slices that a caller lends: the record, or what refuses it.
#![tactic(auto)]

ghost use Rattle.std.specs.Prelude.{◌≡◌, false, ◌≤◌, ◌-◌, ◌++◌, [], ◌∷◌, length, replicate};
ghost use Rattle.limits.specs.Limits.{max_taps};
ghost use Rattle.limits.specs.Zero.{plus_zero};
ghost use Rattle.runs.specs.Refusals.{order_refused};
ghost use Rattle.runs.specs.View.{refusal_in};
ghost use Rattle.c_layout.specs.Layout.{count_places};
ghost use Rattle.fir_theory.specs.Fir.{zeros, ready_made, from_coeffs, taps_by_default};
ghost use Rattle.fir.specs.View.{made_view};
ghost use Rattle.design_cascade.specs.View.{design_view};
ghost use Rattle.c_designs.specs.Designs.{design_call, taps_places, made_call, window_of};

use c_layout::{COUNTS, has_places, write};
use cascade::Cascade;
use design_fir::WindowType;
use fir::TapRecord;
use runs::Refusal;

// A cascade design into slices.
pub fn hand_out(
    design: Result<Cascade, Refusal>,
    numbers: &mut [f64],
    counts: &mut [usize],
) -> Result<(), Refusal>
    ensures { record { refusal = refusal_in result; numbers = numbers.new; counts = counts.new }
        ≡ design_call (design_view design) numbers.old counts.old }
{
    if !has_places(numbers, counts) {
        return Err(Refusal::BadCall);
    }
    write(design?, numbers, counts);
    Ok(())
}

// Whether slices have the places of a tap record.
#[tactic(auto, using(std::proofs::lemmas::Bool::Decides::nat_tests), unfolding(crate::specs::Designs::taps_places))]
fn has_tap_places(taps: &[f64], samples: &[f64], counts: &[usize]) -> bool
    ensures { result ≡ taps_places taps.now samples.now counts.now }
{
    taps.len() == TapRecord::MAX_TAPS
        && samples.len() == TapRecord::MAX_TAPS
        && counts.len() == COUNTS
}

// A tap record into slices.
pub fn hand_out_taps(
    made: Result<TapRecord, Refusal>,
    taps: &mut [f64],
    samples: &mut [f64],
    counts: &mut [usize],
) -> Result<(), Refusal>
    ensures { record { refusal = refusal_in result; taps = taps.new; samples = samples.new; counts = counts.new }
        ≡ made_call taps.old samples.old counts.old (made_view made) }
{
    if !has_tap_places(taps, samples, counts) {
        return Err(Refusal::BadCall);
    }
    let made = made?;
    taps.copy_from_slice(&made.taps);
    samples.copy_from_slice(&made.samples);
    counts.copy_from_slice(&[made.length, made.held, usize::from(made.window)]);
    Ok(())
}

// Whether 1 refuses ready-made taps: there are none, or more than 64.
#[tactic(auto, using(std::proofs::lemmas::Bool::Decides::nat_tests), unfolding(runs::specs::Refusals::order_refused))]
fn coeffs_refused(coeffs: &[f64]) -> bool
    ensures refused { result ≡ order_refused (length coeffs.now) max_taps }
    ensures few { result ≡ false → length coeffs.now ≤ max_taps }
{
    coeffs.is_empty() || coeffs.len() > TapRecord::MAX_TAPS
}

// Ready-made taps into the places of a tap record. They go straight there: a record on the way takes stack. They are copied one by
// one: `copy_from_slice` would take memmove from the program that the archive is linked into.
fn put_coeffs(coeffs: &[f64], taps: &mut [f64], samples: &mut [f64], counts: &mut [usize])
    requires few { length coeffs.now ≤ max_taps }
    requires places { (length taps.old ≡ max_taps) × (length samples.old ≡ max_taps) × (length counts.old ≡ count_places) }
    ensures taps { taps.new ≡ coeffs.now ++ replicate (max_taps - length coeffs.now) plus_zero }
    ensures samples { samples.new ≡ zeros max_taps }
    ensures counts { counts.new ≡ length coeffs.now ∷ 0 ∷ ready_made ∷ [] }
{
    let (front, back) = taps.split_at_mut(coeffs.len());
    for (i, place) in front.iter_mut().enumerate() {
        *place = coeffs[i];
    }
    back.fill(0.0);
    samples.fill(0.0);
    counts.copy_from_slice(&[coeffs.len(), 0, usize::from(TapRecord::READY_MADE)]);
}

// Ready-made taps into slices. None or more than 64 are refused by 1, and taps that are not all finite by 25, which comes behind
// both tests of the raw form.
pub fn hand_out_coeffs(
    coeffs: &[f64],
    taps: &mut [f64],
    samples: &mut [f64],
    counts: &mut [usize],
) -> Result<(), Refusal>
    ensures { record { refusal = refusal_in result; taps = taps.new; samples = samples.new; counts = counts.new }
        ≡ made_call taps.old samples.old counts.old (taps_by_default max_taps (from_coeffs max_taps coeffs.now)) }
{
    if !has_tap_places(taps, samples, counts) {
        return Err(Refusal::BadCall);
    }
    if coeffs_refused(coeffs) {
        return Err(Refusal::InvalidOrder);
    }
    if runs::not_all_finite(coeffs) {
        return Err(Refusal::NonFiniteCoefficient);
    }
    put_coeffs(coeffs, taps, samples, counts);
    Ok(())
}

// The same of any taps, finite or not.
pub fn hand_out_coeffs_raw(
    coeffs: &[f64],
    taps: &mut [f64],
    samples: &mut [f64],
    counts: &mut [usize],
) -> Result<(), Refusal>
    ensures { record { refusal = refusal_in result; taps = taps.new; samples = samples.new; counts = counts.new }
        ≡ made_call taps.old samples.old counts.old (from_coeffs max_taps coeffs.now) }
{
    if !has_tap_places(taps, samples, counts) {
        return Err(Refusal::BadCall);
    }
    if coeffs_refused(coeffs) {
        return Err(Refusal::InvalidOrder);
    }
    put_coeffs(coeffs, taps, samples, counts);
    Ok(())
}

// The window of a code; above 2 it is Blackman's.
pub fn window_of(code: usize) -> WindowType
    ensures { result ≡ window_of code }
{
    WindowType::try_from(code).unwrap_or(WindowType::Blackman)
}
