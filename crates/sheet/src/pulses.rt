// Whole pulses through a channel class.
use super::fault::Fault;
use super::parameters::{MOST, Parameters};
use super::put::{put_done, put_floats};
use text_answers::Output;

// The class, the rate, the number of samples, and the samples.
pub(crate) fn answer_j211(mut parameters: Parameters, output: &mut Output) -> Result<(), Fault> {
    let number = parameters.number();
    if number < 3 {
        return Err(Fault::TokenCount);
    }
    let class = parameters.count()?;
    let sample_rate = parameters.float()?;
    let n = parameters.length()?;
    if number != 3 + n {
        return Err(Fault::TokenCount);
    }
    let mut samples = [0.0; MOST];
    let places = &mut samples[..n];
    parameters.floats(places)?;
    put_done(output, j211::filter(class, sample_rate, places));
    put_floats(output, places);
    Ok(())
}
