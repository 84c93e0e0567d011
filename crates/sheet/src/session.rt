// From the bytes that are read to those that are written.
use super::answer::Answers;
use super::line::Line;
use text_answers::Output;

// More bytes of answers than this are written before the next line is answered.
const HALF_FULL: usize = 32768;

// What goes from line to line, and whether to read no further, since answers could not be written: a flag, as the rest of the
// chunk is answered all the same.
#[derive(Drop)]
pub(crate) struct Session<'a> {
    answers: Answers<'a>,
    line: Line,
    stopped: bool,
}

impl<'a> Session<'a> {
    pub(crate) fn new(output: Output<'a>) -> Self {
        Session {
            answers: Answers::new(output),
            line: Line::empty(),
            stopped: false,
        }
    }

    pub(crate) fn is_stopped(&self) -> bool {
        self.stopped
    }

    // Writes the answers that wait.
    fn write_waiting(&mut self, rt: &(impl Print + Eprint)) {
        let output = &mut self.answers.output;
        let is_written = output
            .written()
            .is_some_and(|answers| rt.write_all(answers).is_ok());
        output.at = 0;
        if !is_written {
            let _ = eprintln!(rt; "sheet: standard output cannot be written");
            self.stopped = true;
        }
    }

    // Answers the held line; the next one starts empty.
    fn answer_held(&mut self, rt: &(impl Print + Eprint)) {
        if self.answers.output.at > HALF_FULL {
            self.write_waiting(rt);
        }
        self.answers.answer_line(self.line.text());
        self.line.clear();
    }

    // Answers the lines that end in a chunk of input and holds the rest.
    pub(crate) fn answer_chunk(&mut self, rt: &(impl Print + Eprint), chunk: &[u8]) {
        for part in chunk.split_inclusive(|b| *b == b'\n') {
            match part.strip_suffix(b"\n") {
                Some(end) => {
                    self.line.hold(end);
                    self.line.drop_cr();
                    self.answer_held(rt);
                }
                None => self.line.hold(part),
            }
        }
        self.write_waiting(rt);
    }

    // At the end of the input: the last line, which may lack its LF.
    pub(crate) fn finish(&mut self, rt: &(impl Print + Eprint)) {
        self.answer_held(rt);
        self.write_waiting(rt);
    }
}
