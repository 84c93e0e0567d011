// The by-value `update` of both kinds of record, once for each sample, under a C name: for measuring (bench/). Not part of
// what the recorder runs.
#![tactic(auto)]

ghost use Rattle.std.specs.Prelude.{◌≡◌, ◌≤◌, length};
ghost use Rattle.runs.specs.Runs.{answers, written, placed};
ghost use Rattle.runs.specs.View.{answer_view, refusal_in};
ghost use Rattle.steps.specs.Steps.{steps_made, cascade_steps, fir_steps};

use fir::TapRecord;
use runs::{Answer, FilterRecord, Refusal, number_in};

// What an answer makes of an output place: its number; a refused one leaves the place.
fn place(answer: Answer, old: f64) -> f64
    ensures { result ≡ placed (answer_view answer) old }
{
    match answer {
        Answer::Clear(y) | Answer::Clouded(y) => y,
        Answer::Refused(_) => old,
    }
}

// The steps of a record, one for each sample.
fn run<R: FilterRecord>(start: R, input: &[f64], output: &mut [f64])
    requires { length input.now ≤ length output.old }
    ensures { output.new ≡ written (answers R.theory (R.view start) input.now) output.old }
{
    let mut filter = start;
    for (i, x) in input.iter().enumerate() {
        let u = filter.update(*x);
        output[i] = place(u.answer, output[i]);
        filter = u.record;
    }
}

// The steps of a record that was made, if it was.
fn steps<R: FilterRecord>(
    made: Result<R, Refusal>,
    input: &[f64],
    output: &mut [f64],
) -> Result<(), Refusal>
    ensures { record { refusal = refusal_in result; output = output.new }
        ≡ steps_made R.theory R.view made input.now output.old }
{
    let start = made?;
    if output.len() < input.len() {
        return Err(Refusal::ShortOutput);
    }
    run(start, input, output);
    Ok(())
}

// The input through a Butterworth low pass: 0, or the number that refuses.
#[unsafe(no_mangle)]
pub extern "C" fn steps_cascade(
    order: usize,
    cutoff: f64,
    sample_rate: f64,
    input: &[f64],
    output: &mut [f64],
) -> u8
    ensures { record { refusal = result; output = output.new }
        ≡ cascade_steps order cutoff sample_rate input.now output.old }
{
    let made = design_cascade::design_butterworth_lp_raw(order, cutoff, sample_rate);
    number_in(steps(made, input, output))
}

// The input through ready-made taps: 0, or the number that refuses.
#[unsafe(no_mangle)]
pub extern "C" fn steps_fir(coeffs: &[f64], input: &[f64], output: &mut [f64]) -> u8
    ensures { record { refusal = result; output = output.new } ≡ fir_steps coeffs.now input.now output.old }
{
    let made = TapRecord::from_coeffs_raw(coeffs);
    number_in(steps(made, input, output))
}
