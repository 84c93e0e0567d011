// The answer to a line.
use super::fault::Fault;
use super::functions::{answer_function, function_of};
use super::line::LONGEST;
use super::parameters::Parameters;
use super::pulses::answer_j211;
use super::rival::answer_rival;
use super::running::{answer_block, answer_reset, answer_step};
use cascade::Cascade;
use design_request::Form;
use fir::TapRecord;
use std::fmt;
use std::fmt::Write;
use text_answers::{Output, next_token};

// The current records, and where the answers go.
#[derive(Drop)]
pub(crate) struct Answers<'a> {
    pub(crate) cascade: Cascade,
    pub(crate) filter: TapRecord,
    pub(crate) output: Output<'a>,
}

// The word of a line, given without its end, and what follows the word. A blank line and a comment have none.
fn word_of(line: &[u8]) -> Result<Option<(&[u8], &[u8])>, Fault> {
    if line.len() > LONGEST {
        return Err(Fault::LineTooLong);
    }
    if line.starts_with(b"#") {
        return Ok(None);
    }
    Ok(next_token(line))
}

impl<'a> Answers<'a> {
    pub(crate) fn new(output: Output<'a>) -> Self {
        Answers {
            cascade: Cascade::blank(),
            filter: TapRecord::blank(),
            output,
        }
    }

    // A design or ready-made taps, by the form. No other request has one.
    fn answer_by_form(
        &mut self,
        form: Form,
        word: &[u8],
        parameters: Parameters,
    ) -> Result<(), Fault> {
        match word {
            b"taps" => self.answer_taps(form, parameters),
            _ => self.answer_design(form, word, parameters),
        }
    }

    // What stands behind `raw`, from its word on.
    fn answer_raw(&mut self, mut parameters: Parameters) -> Result<(), Fault> {
        let word = parameters.word()?;
        self.answer_by_form(Form::Raw, word, parameters)
    }

    fn answer_request(&mut self, word: &[u8], parameters: Parameters) -> Result<(), Fault> {
        let output = &mut self.output;
        match word {
            b"cstep" => answer_step(&mut self.cascade, parameters, output),
            b"fstep" => answer_step(&mut self.filter, parameters, output),
            b"cblock" => answer_block(&mut self.cascade, parameters, output),
            b"fblock" => answer_block(&mut self.filter, parameters, output),
            b"creset" => answer_reset(&mut self.cascade, parameters, output),
            b"freset" => answer_reset(&mut self.filter, parameters, output),
            b"raw" => self.answer_raw(parameters),
            b"j211" => answer_j211(parameters, output),
            b"rival" => answer_rival(parameters, output),
            _ => match function_of(word) {
                Some(function) => answer_function(function, parameters, output),
                None => self.answer_by_form(Form::Default, word, parameters),
            },
        }
    }

    // Puts the answer to a line, where it draws one, and the answer's end. What finds a fault has put nothing.
    pub(crate) fn answer_line(&mut self, line: &[u8]) {
        let outcome = match word_of(line) {
            Ok(Some((word, rest))) => self.answer_request(word, Parameters::new(rest)),
            Ok(None) => return,
            Err(fault) => Err(fault),
        };
        if let Err(fault) = outcome {
            let _ = write!(self, "error {fault}");
        }
        self.output.put_bytes(b"\n");
    }
}

// A text becomes part of the answer.
impl fmt::Write for Answers<'_> {
    fn write_str(&mut self, text: &str) -> fmt::Result {
        self.output.put_bytes(text.as_bytes());
        Ok(())
    }
}
