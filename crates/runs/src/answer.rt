// 01's run answer.
ghost use Rattle.std.specs.Prelude.{◌≡◌};
ghost use Rattle.runs.specs.Runs.{number_of, is_clouded, refusal_of};
ghost use Rattle.runs.specs.View.{answer_view, refusal_in};

use super::refusal::Refusal;

#[derive(Clone, Copy)]
pub enum Answer {
    // The number, from finite samples alone.
    Clear(f64),
    // The number, from samples that were not all finite.
    Clouded(f64),
    Refused(Refusal),
}

impl Answer {
    // The number of an answer; a refused one has none: +0.
    pub fn number(self) -> f64
        ensures { result ≡ number_of (answer_view self) }
    {
        match self {
            Answer::Clear(y) | Answer::Clouded(y) => y,
            Answer::Refused(_) => 0.0,
        }
    }

    // Whether an answer is Clouded.
    pub fn is_clouded(self) -> bool
        ensures { result ≡ is_clouded (answer_view self) }
    {
        matches!(self, Answer::Clouded(_))
    }

    // Whether the sample was answered, or what refused it.
    pub fn accepted(self) -> Result<(), Refusal>
        ensures { refusal_in result ≡ refusal_of (answer_view self) }
    {
        match self {
            Answer::Clear(_) | Answer::Clouded(_) => Ok(()),
            Answer::Refused(refusal) => Err(refusal),
        }
    }
}
