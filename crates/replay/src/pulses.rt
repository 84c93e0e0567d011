// The requests of whole pulses through a channel class.
use crate::asked::{Asked, MOST};
use crate::list::Request;

// A class, a rate and the samples. One that is too long is cut, so that its answer differs.
pub(crate) fn pulse(request: Request) -> bool {
    let [class, rate, samples @ ..] = request.asked.0 else {
        return false;
    };
    let mut places = Asked(samples).numbers();
    let buffer = &mut places[..samples.len().min(MOST)];
    let outcome = j211::filter(*class as usize, ieee::from_bits(*rate), buffer);
    request.stored.agrees_with_places(outcome, buffer)
}
