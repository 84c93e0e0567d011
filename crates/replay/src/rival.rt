// The requests of channels of the rival's blocks.
use crate::asked::MOST;
use crate::list;
use crate::list::Request;
use crate::records::places;

// The words as bytes. None where one is no byte.
fn bytes<'a>(words: &[u64], places: &'a mut [u8; list::MOST]) -> Option<&'a [u8]> {
    let bytes = places.get_mut(..words.len())?;
    for (byte, word) in bytes.iter_mut().zip(words) {
        *byte = u8::try_from(*word).ok()?;
    }
    Some(bytes)
}

// A channel, how many places the output has, and the block's bytes. What is no such request does not agree.
pub(crate) fn channel(request: Request) -> bool {
    let [channel, long, words @ ..] = request.asked.0 else {
        return false;
    };
    let mut block = [0; list::MOST];
    let Some(block) = bytes(words, &mut block) else {
        return false;
    };
    let long = (*long as usize).min(MOST);
    let mut output = places();
    let outcome = recordings::read_channel(block, *channel as usize, &mut output[..long]);
    request.stored.agrees_with_output(outcome, &output[..long])
}
