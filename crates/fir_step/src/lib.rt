// 01 "Tap record", one sample at a time, where the record's taps and samples are lent: what `fir::TapRecord` and the C
// interface share. Newest sample at place 0. The taps, the samples and the counts are handed on as three: a struct of them would be
// made for each call, from a record's arrays as from C's slices, and be no plainer.
#![tactic(auto)]

ghost use Rattle.std.specs.Prelude.{◌≡◌, true, [], ◌≤◌, length, take};
ghost use Rattle.std.specs.Float.{binary64};
ghost use Rattle.limits.specs.Limits.{max_taps};
ghost use Rattle.limits.specs.Zero.{plus_zero};
ghost use Rattle.runs.specs.Runs.{marked, step};
ghost use Rattle.runs.specs.Lent.{lent_refusal, lent_step, lent_reset};
ghost use Rattle.runs.specs.View.{answer_view, refusal_in};
ghost use Rattle.fir_theory.specs.Fir.{pushed, sum, clouding, check_taps, fir};
ghost use Rattle.fir_theory.specs.Lent.{lent_taps, fits};
ghost use Rattle.fir_step.specs.View.{lent_view};

use limits::MAX_TAPS;
use runs::{Answer, Refusal};
use std::mem;

// The window code of ready-made taps, the largest.
pub const READY_MADE: usize = 4;

// The counts of a lent record: how many taps there are, how many samples are held, and which window made the taps.
#[derive(Clone, Copy)]
pub struct Counts {
    pub length: usize,
    pub held: usize,
    pub window: usize,
}

impl Counts {
    // Whether a record of these counts passes its check. One that does not is refused by 12.
    #[tactic(auto, using(std::proofs::lemmas::Bool::Decides::nat_tests), unfolding(fir_theory::specs::Fir::check_taps))]
    pub fn check(self) -> bool
        ensures { result ≡ check_taps max_taps (lent_view [] [] self) }
    {
        1 <= self.length
            && self.length <= MAX_TAPS
            && self.held <= self.length
            && self.window <= READY_MADE
    }
}

// Each sample moves up by one, the last falls out, and x goes to place 0; and to +0 tap i × sample i is added, from 0 up. In one
// loop, which is faster than two (docs/SPEED.md).
fn push_and_convolve(taps: &[f64], samples: &mut [f64], x: f64) -> f64
    requires { length samples.old ≤ length taps.now }
    ensures pushed { samples.new ≡ pushed (length samples.old) x samples.old }
    ensures sum { result ≡ sum binary64 plus_zero taps.now samples.new }
{
    let mut sum = 0.0;
    let mut carried = x;
    for (i, place) in samples.iter_mut().enumerate() {
        mem::swap(place, &mut carried);
        sum += taps[i] * *place;
    }
    sum
}

// The same where not all of the samples are held: the products of the first `held` are added. In one loop, since two take more
// stack; and beside `push_and_convolve`, whose loop has no test, which is faster.
fn push_and_convolve_held(taps: &[f64], samples: &mut [f64], held: usize, x: f64) -> f64
    requires taps { held ≤ length taps.now }
    requires held { held ≤ length samples.old }
    ensures pushed { samples.new ≡ pushed (length samples.old) x samples.old }
    ensures sum { result ≡ sum binary64 plus_zero taps.now (take held samples.new) }
{
    let mut sum = 0.0;
    let mut carried = x;
    for (i, place) in samples.iter_mut().enumerate() {
        mem::swap(place, &mut carried);
        if i < held {
            sum += taps[i] * *place;
        }
    }
    sum
}

// x is pushed among the samples, and the first `held` of them are summed.
fn take_in(taps: &[f64], samples: &mut [f64], held: usize, x: f64) -> f64
    requires some { 1 ≤ length samples.old }
    requires taps { length samples.old ≤ length taps.now }
    requires held { held ≤ length samples.old }
    ensures pushed { samples.new ≡ pushed (length samples.old) x samples.old }
    ensures sum { result ≡ sum binary64 plus_zero taps.now (take held samples.new) }
{
    if held < samples.len() {
        return push_and_convolve_held(taps, samples, held, x);
    }
    push_and_convolve(taps, samples, x)
}

// The mark, 01 "Run answer": the answer y from these taps and samples is Clouded where a sample is not finite. A sum that is
// finite has finite samples alone.
#[tactic(auto, using(fir_theory::proofs::Laws::finite_clear), unfolding(fir_theory::specs::Fir::clouding))]
fn marked(taps: &[f64], samples: &[f64], y: f64) -> Answer
    requires taps { length samples.now ≤ length taps.now }
    requires sum { y ≡ sum binary64 plus_zero taps.now samples.now }
    ensures { answer_view result ≡ marked (clouding taps.now samples.now) y }
{
    if !scalar::is_finite(y) && runs::not_all_finite(samples) {
        Answer::Clouded(y)
    } else {
        Answer::Clear(y)
    }
}

// Whether the slices fit the record. Slices that do not are refused by 13.
#[tactic(auto, using(std::proofs::lemmas::Bool::Decides::nat_tests), unfolding(fir_theory::specs::Lent::fits))]
fn fit(taps: &[f64], samples: &[f64]) -> bool
    ensures { result ≡ fits max_taps (lent_taps taps.now samples.now 0 0 0) }
{
    taps.len() == MAX_TAPS && samples.len() == MAX_TAPS
}

// What refuses a record.
#[tactic(auto, using(fir_theory::proofs::Laws::refusals), unfolding(fir_theory::specs::Lent::fits, fir_theory::specs::Fir::check_taps))]
pub fn refusal_of(taps: &[f64], samples: &[f64], counts: Counts) -> Result<(), Refusal>
    ensures { refusal_in result
        ≡ lent_refusal (fir max_taps binary64) (fits max_taps) (lent_view taps.now samples.now counts) }
{
    runs::refuse_if(!fit(taps, samples), Refusal::BadCall)?;
    runs::refuse_if(!counts.check(), Refusal::BadTaps)
}

// One sample of a record that is not refused: its answer, and the record after it.
#[tactic(auto, unfolding(fir_theory::specs::Lent::fits, fir_theory::specs::Fir::check_taps))]
fn pass(taps: &[f64], samples: &mut [f64], counts: &mut Counts, x: f64) -> Answer
    requires fit { fits max_taps (lent_view taps.now samples.old counts.old) ≡ true }
    requires good { check_taps max_taps (lent_view taps.now samples.old counts.old) ≡ true }
    ensures { record { answer = answer_view result; state = lent_view taps.now samples.new counts.new }
        ≡ step (fir max_taps binary64) (lent_view taps.now samples.old counts.old) x }
{
    counts.held = counts.length.min(counts.held + 1);
    let y = take_in(taps, &mut samples[..counts.length], counts.held, x);
    marked(taps, &samples[..counts.held], y)
}

// One sample: its answer, and the record after it.
pub fn update(taps: &[f64], samples: &mut [f64], counts: &mut Counts, x: f64) -> Answer
    ensures { record { answer = answer_view result; state = lent_view taps.now samples.new counts.new }
        ≡ lent_step (fir max_taps binary64) (fits max_taps) (lent_view taps.now samples.old counts.old) x }
{
    match refusal_of(taps, samples, *counts) {
        Ok(()) => pass(taps, samples, counts, x),
        Err(refusal) => Answer::Refused(refusal),
    }
}

// Makes all sample places +0 and the held count 0.
pub fn reset(taps: &[f64], samples: &mut [f64], counts: &mut Counts) -> Result<(), Refusal>
    ensures { record { refusal = refusal_in result; state = lent_view taps.now samples.new counts.new }
        ≡ lent_reset (fir max_taps binary64) (fits max_taps) (lent_view taps.now samples.old counts.old) }
{
    refusal_of(taps, samples, *counts)?;
    samples.fill(0.0);
    counts.held = 0;
    Ok(())
}
