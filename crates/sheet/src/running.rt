// Steps, blocks and resets of a current record. It is lent beside the output: to hand both records on would copy them, a fifth
// of the time of an `fstep`.
use super::fault::Fault;
use super::parameters::{MOST, Parameters};
use super::put::{put_answer, put_block, put_done};
use runs::FilterRecord;
use text_answers::Output;

pub(crate) fn answer_step<R: FilterRecord>(
    record: &mut R,
    parameters: Parameters,
    output: &mut Output,
) -> Result<(), Fault> {
    let x = parameters.only_float()?;
    let step = record.update(x);
    *record = step.record;
    put_answer(output, step.answer);
    Ok(())
}

// An output's places before a call: 1000, 1001 and so on. `replay` has the same: a crate for a few lines would be no plainer.
pub(crate) fn places_before() -> [f64; MOST] {
    let mut places = [0.0; MOST];
    for (place, number) in places.iter_mut().zip(1000u16..) {
        *place = f64::from(number);
    }
    places
}

// The number of samples, the samples, and the length of the output.
pub(crate) fn answer_block<R: FilterRecord>(
    record: &mut R,
    mut parameters: Parameters,
    output: &mut Output,
) -> Result<(), Fault> {
    let m = parameters.length()?;
    parameters.exactly(m + 1)?;
    let mut samples = [0.0; MOST];
    let input = &mut samples[..m];
    parameters.floats(input)?;
    let l = parameters.length()?;
    let mut all = places_before();
    let places = &mut all[..l];
    let block = record.block(input, places);
    *record = block.record;
    put_block(output, block.outcome, places);
    Ok(())
}

pub(crate) fn answer_reset<R: FilterRecord>(
    record: &mut R,
    parameters: Parameters,
    output: &mut Output,
) -> Result<(), Fault> {
    parameters.exactly(0)?;
    let reset = record.reset();
    *record = reset.record;
    put_done(output, reset.outcome);
    Ok(())
}
