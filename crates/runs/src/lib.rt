// What running has in common, whatever the filter: the answer to a sample, what a step, a reset and a
// block return, the refusals, default forms, and whether numbers are all finite. What a step, a block and a reset are, for
// any filter, width and capacity, stands in specs/.
#![tactic(auto)]

mod answer;
mod defaults;
mod refusal;
mod results;

ghost use Rattle.std.specs.Prelude.{◌≡◌};
ghost use Rattle.runs.specs.Runs.{not_all_finite};

pub use answer::Answer;
pub use defaults::{Coefficients, by_default};
pub use refusal::{Refusal, number_in, refuse_if};
pub use results::{BlockResult, FilterRecord, ResetResult, UpdateResult, count_in};

// Whether one of the numbers is an infinity or a NaN: such numbers are counted, with no way out of the loop as `any` has one, so
// that the compiler can look at several at a time.
pub fn not_all_finite(numbers: &[f64]) -> bool
    ensures { result ≡ not_all_finite numbers.now }
{
    let mut count: usize = 0;
    for x in numbers {
        count += usize::from(!scalar::is_finite(*x));
    }
    count > 0
}
