// What a step, a reset and a block of a record return, each by its own name (docs/DECISIONS.md, "Names of results"), and the trait of
// records that run as filters.
ghost use Rattle.std.specs.Prelude.{◌≡◌};
ghost use Rattle.runs.specs.Runs.{Filter, step, reset, block};
ghost use Rattle.runs.specs.View.{count_in, updated_view, reset_view, block_view};

use super::answer::Answer;
use super::refusal::Refusal;

// What a step returns: its answer, and the record after it.
#[derive(Clone, Copy)]
pub struct UpdateResult<R> {
    pub answer: Answer,
    pub record: R,
}

// What a reset returns, and the record after it.
#[derive(Clone, Copy)]
pub struct ResetResult<R> {
    pub outcome: Result<(), Refusal>,
    pub record: R,
}

// What a block returns: how many answers were Clouded, and the record after it.
#[derive(Clone, Copy)]
pub struct BlockResult<R> {
    pub outcome: Result<usize, Refusal>,
    pub record: R,
}

// How many answers of a block were Clouded, or how many samples a channel has; a refused call counts 0.
pub fn count_in(outcome: Result<usize, Refusal>) -> usize
    ensures { result ≡ count_in outcome }
{
    outcome.unwrap_or(0)
}

// A record that runs as a filter. `theory` is the filter that it is, and `view` reads the record as that filter's state.
pub trait FilterRecord: Copy {
    ghost theory: { Filter };

    ghost view: { Self → theory.State };

    // One sample: its answer, and the record after it.
    fn update(self, x: f64) -> UpdateResult<Self>
        ensures { updated_view view result ≡ step theory (view self) x };

    // The record as it was before its first sample.
    fn reset(self) -> ResetResult<Self>
        ensures { reset_view view result ≡ reset theory (view self) };

    // A block of samples, each as `update` has it: the answers in the first places of the output, later places left. An
    // output shorter than the input is refused by 5.
    fn block(self, input: &[f64], output: &mut [f64]) -> BlockResult<Self>
        ensures { block_view view result output.new ≡ block theory (view self) input.now output.old };
}
