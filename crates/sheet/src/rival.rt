// Blocks of the rival recorder.
use super::fault::Fault;
use super::parameters::{MOST_BYTES, Parameters};
use super::put::put_block;
use super::running::places_before;
use text_answers::Output;

// The channel's number, the length of the output, and the block.
pub(crate) fn answer_rival(mut parameters: Parameters, output: &mut Output) -> Result<(), Fault> {
    parameters.exactly(3)?;
    let channel = parameters.count()?;
    let l = parameters.length()?;
    let mut bytes = [0; MOST_BYTES];
    let block = parameters.bytes(&mut bytes)?;
    let mut all = places_before();
    let places = &mut all[..l];
    let count = recordings::read_channel(block, channel, places);
    put_block(output, count, places);
    Ok(())
}
