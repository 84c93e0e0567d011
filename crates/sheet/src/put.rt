// The pieces of an answer line.
use runs::{Answer, Refusal};
use text_answers::Output;

pub(crate) fn put_refused(output: &mut Output, refusal: Refusal) {
    output.put_bytes(b"refused ");
    output.put_count(u64::from(u8::from(refusal)));
}

// A space and a float, for each.
pub(crate) fn put_floats(output: &mut Output, xs: &[f64]) {
    for x in xs {
        output.put_bytes(b" ");
        output.put_float(*x);
    }
}

// What a step answers.
pub(crate) fn put_answer(output: &mut Output, answer: Answer) {
    match answer {
        Answer::Clear(y) => {
            output.put_bytes(b"clear");
            put_floats(output, &[y]);
        }
        Answer::Clouded(y) => {
            output.put_bytes(b"clouded");
            put_floats(output, &[y]);
        }
        Answer::Refused(refusal) => put_refused(output, refusal),
    }
}

// `refused K` or `done`: what a reset answers, and how a pulse's answer begins.
pub(crate) fn put_done(output: &mut Output, outcome: Result<(), Refusal>) {
    match outcome {
        Ok(()) => output.put_bytes(b"done"),
        Err(refusal) => put_refused(output, refusal),
    }
}

// What a block answers: its refusal or its number of clouded answers, and the output's places after the call. Reading a channel
// answers alike, by its number of samples.
pub(crate) fn put_block(output: &mut Output, outcome: Result<usize, Refusal>, places: &[f64]) {
    match outcome {
        Ok(count) => {
            output.put_bytes(b"done ");
            output.put_count(count as u64);
        }
        Err(refusal) => put_refused(output, refusal),
    }
    put_floats(output, places);
}
