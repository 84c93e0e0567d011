// The requests that run a record: steps, blocks and resets. Each leaves the record after it, and tells whether its answer is as
// stored.
use crate::asked::MOST;
use crate::list::Request;
use runs::FilterRecord;

// An output before the call: 1000, 1001, and so on. `sheet` has the same: a crate for a few lines would be no plainer.
pub(crate) fn places() -> [f64; MOST] {
    let mut places = [0.0; MOST];
    for (place, number) in places.iter_mut().zip(1000u16..) {
        *place = f64::from(number);
    }
    places
}

pub(crate) fn step<R: FilterRecord>(record: &mut R, mut request: Request) -> bool {
    let u = record.update(request.asked.number());
    *record = u.record;
    request.stored.agrees_with_sample(u.answer)
}

// A block: how many samples it has and how many places its output, and the samples. One that is too long is cut, so that
// its answer differs.
pub(crate) fn block<R: FilterRecord>(record: &mut R, mut request: Request) -> bool {
    let samples = request.asked.size().min(MOST);
    let long = request.asked.size().min(MOST);
    let input = request.asked.numbers();
    let mut output = places();
    let b = record.block(&input[..samples], &mut output[..long]);
    *record = b.record;
    request
        .stored
        .agrees_with_output(b.outcome, &output[..long])
}

pub(crate) fn reset<R: FilterRecord>(record: &mut R, request: Request) -> bool {
    let r = record.reset();
    *record = r.record;
    request.stored.agrees_with_places(r.outcome, &[])
}
