// 01 "Tap record", a block of samples at a time, where the record's taps and samples are lent. Samples go one by one until
// the record is full, and then all at once: sixteen sums side by side, the marks counted apart. Added: the Rust has no
// blocks.
#![tactic(auto)]

ghost use Rattle.std.specs.Prelude.{◌≡◌, true, ◌++◌, ◌+◌, ◌*◌, ◌≤◌, min, length, take, drop, reverse};
ghost use Rattle.std.specs.Float.{binary64};
ghost use Rattle.limits.specs.Limits.{max_taps};
ghost use Rattle.runs.specs.Runs.{block};
ghost use Rattle.runs.specs.Lent.{lent_block};
ghost use Rattle.runs.specs.View.{refusal_in, count_in};
ghost use Rattle.fir_theory.specs.Fir.{check_taps, fir};
ghost use Rattle.fir_theory.specs.Lent.{fits};
ghost use Rattle.fir_theory.specs.Blocks.{finite_run, clouds_from, values, ran_block};
ghost use Rattle.fir_step.specs.View.{lent_view};

use fir_step::Counts;
use limits::MAX_TAPS;
use runs::Refusal;

// Samples the other way round. This is faster than `copy_from_slice` and `reverse` (docs/SPEED.md), and what is written through `zip`
// is not known behind the loop.
fn copy_back(from: &[f64], to: &mut [f64])
    requires { length to.old ≡ length from.now }
    ensures { to.new ≡ reverse from.now }
{
    for (i, place) in to.iter_mut().enumerate() {
        *place = from[from.len() - 1 - i];
    }
}

// How many samples are finite up to the first that is not.
fn finite_run(samples: &[f64]) -> usize
    ensures few { result ≤ length samples.now }
    ensures run { result ≡ finite_run samples.now }
{
    samples
        .iter()
        .take_while(|x| scalar::is_finite(**x))
        .count()
}

// How many of the answers of n taps to the input are Clouded, after so many finite samples.
fn count_clouded(n: usize, mut age: usize, input: &[f64]) -> usize
    requires { age ≤ max_taps }
    ensures few { result ≤ length input.now }
    ensures count { result ≡ clouds_from n (min age n) input.now }
{
    let mut clouded = 0;
    for x in input {
        age = if scalar::is_finite(*x) { age + 1 } else { 0 };
        clouded += usize::from(age < n);
    }
    clouded
}

// A delay line's places: those of a record's samples, and as many behind them.
fn empty_line() -> [f64; 2 * MAX_TAPS]
    ensures { length result ≡ 2 * max_taps }
{
    [0.0; 2 * MAX_TAPS]
}

// The held samples, oldest first, and behind them the input.
fn line_of(samples: &[f64], input: &[f64]) -> [f64; 2 * MAX_TAPS]
    requires samples { length samples.now ≤ max_taps }
    requires input { length input.now ≤ length samples.now }
    ensures long { length result ≡ 2 * max_taps }
    ensures filled { take (length samples.now + length input.now) result ≡ reverse samples.now ++ input.now }
{
    let n = samples.len();
    let mut line = empty_line();
    copy_back(samples, &mut line[..n]);
    line[n..n + input.len()].copy_from_slice(input);
    line
}

// The newest samples after the input: from the line where the input is shorter than they are.
fn keep_newest(samples: &mut [f64], line: &[f64], input: &[f64])
    requires long { length samples.old + length samples.old ≤ length line.now }
    requires filled { length input.now ≤ length samples.old
        → take (length samples.old + length input.now) line.now ≡ reverse samples.old ++ input.now }
    ensures { samples.new ≡ take (length samples.old) (reverse input.now ++ samples.old) }
{
    let (n, m) = (samples.len(), input.len());
    if m < n {
        copy_back(&line[m..n + m], samples);
    } else {
        copy_back(&input[m - n..], samples);
    }
}

// The input through as many taps as there are held samples: how many answers are Clouded.
fn pass_all(taps: &[f64], samples: &mut [f64], input: &[f64], output: &mut [f64]) -> usize
    requires some { 1 ≤ length taps.now }
    requires taps { length taps.now ≤ max_taps }
    requires samples { length samples.old ≡ length taps.now }
    requires output { length output.old ≡ length input.now }
    ensures few { result ≤ length input.now }
    ensures clouded { result
        ≡ clouds_from (length taps.now) (min (finite_run samples.old) (length taps.now)) input.now }
    ensures newest { samples.new ≡ take (length taps.now) (reverse input.now ++ samples.old) }
    ensures sums { output.new ≡ values binary64 taps.now (length taps.now) samples.old input.now }
{
    let n = taps.len();
    let few = n.min(input.len());
    let line = line_of(samples, &input[..few]);
    let (front, back) = output.split_at_mut(few);
    fir_sums::convolve(taps, &line[..n + few], front);
    fir_sums::convolve(taps, input, back);
    let clouded = count_clouded(n, finite_run(samples), input);
    keep_newest(samples, &line, input);
    clouded
}

// Samples one after the other: how many answers are Clouded.
fn pass_some(
    taps: &[f64],
    samples: &mut [f64],
    counts: &mut Counts,
    input: &[f64],
    output: &mut [f64],
) -> usize
    requires fit { fits max_taps (lent_view taps.now samples.old counts.old) ≡ true }
    requires good { check_taps max_taps (lent_view taps.now samples.old counts.old) ≡ true }
    requires room { length input.now ≤ length output.old }
    ensures few { result ≤ length input.now }
    ensures run { ran_block result (lent_view taps.now samples.new counts.new) output.new
        ≡ block (fir max_taps binary64) (lent_view taps.now samples.old counts.old) input.now output.old }
{
    let mut clouded = 0;
    for (i, x) in input.iter().enumerate() {
        let answer = fir_step::update(taps, samples, counts, *x);
        output[i] = answer.number();
        clouded += usize::from(answer.is_clouded());
    }
    clouded
}

// A block that is not refused: how many answers are Clouded.
#[tactic(auto, unfolding(fir_theory::specs::Lent::fits, fir_theory::specs::Fir::check_taps))]
fn pass(
    taps: &[f64],
    samples: &mut [f64],
    counts: &mut Counts,
    input: &[f64],
    output: &mut [f64],
) -> usize
    requires fit { fits max_taps (lent_view taps.now samples.old counts.old) ≡ true }
    requires good { check_taps max_taps (lent_view taps.now samples.old counts.old) ≡ true }
    requires room { length input.now ≤ length output.old }
    ensures { ran_block result (lent_view taps.now samples.new counts.new) output.new
        ≡ block (fir max_taps binary64) (lent_view taps.now samples.old counts.old) input.now output.old }
{
    let n = counts.length;
    let first = input.len().min(n - counts.held);
    let front = pass_some(taps, samples, counts, &input[..first], output);
    if first == input.len() {
        return front;
    }
    let rest = pass_all(
        &taps[..n],
        &mut samples[..n],
        &input[first..],
        &mut output[first..input.len()],
    );
    front + rest
}

// A block of samples, each as `fir_step::update` has it: how many answers are Clouded. The answers stand in the first places of
// the output, and later places are left. An output shorter than the input is refused by 5.
pub fn block(
    taps: &[f64],
    samples: &mut [f64],
    counts: &mut Counts,
    input: &[f64],
    output: &mut [f64],
) -> Result<usize, Refusal>
    ensures { record {
      refusal = refusal_in result;
      clouded = count_in result;
      state = lent_view taps.now samples.new counts.new;
      output = output.new;
    }
        ≡ lent_block (fir max_taps binary64) (fits max_taps) (lent_view taps.now samples.old counts.old) input.now
        output.old }
{
    fir_step::refusal_of(taps, samples, *counts)?;
    runs::refuse_if(output.len() < input.len(), Refusal::ShortOutput)?;
    Ok(pass(taps, samples, counts, input, output))
}
