// A record that a caller lends in slices.
ghost use Rattle.std.specs.Prelude.{◌≡◌, ◌≢◌, true, List, ℕ, Float};
ghost use Rattle.runs.specs.Refusals.{no_refusal};
ghost use Rattle.runs.specs.View.{answer_view, refusal_in, count_in};
ghost use Rattle.c_calls.specs.Kinds.{Kind};
ghost use Rattle.c_blocks.specs.Lent.{StepsLent, ResetsLent, BlocksLent};

use runs::{Answer, Refusal};

// A record in slices that a caller lends. Slices that do not fit are refused by 13, before the record's own check: by `let else` in
// each method, to which `ok_or` and `?` would be no plainer.
pub trait Lent {
    // which slices are lent, and the kind of record that they hold
    ghost Slices: { Type 0 };

    ghost slices: { Self → Slices };

    ghost kind: { Slices → Kind };

    // what the slices that a call may change hold
    ghost numbers: { Self → List Float };

    ghost counts: { Self → List ℕ };

    // One sample.
    fn update(&mut self, x: f64) -> Answer
        ensures same { slices self.new ≡ slices self.old }
        ensures ran { StepsLent (kind (slices self.old)) (numbers self.old) (counts self.old) x (answer_view result) (numbers self.new) (counts self.new) };

    // A reset.
    fn reset(&mut self) -> Result<(), Refusal>
        ensures same { slices self.new ≡ slices self.old }
        ensures ran { ResetsLent (kind (slices self.old)) (numbers self.old) (counts self.old) (refusal_in result) (numbers self.new) (counts self.new) };

    // A block of samples, each as `update` has it: how many answers were Clouded.
    fn block(&mut self, input: &[f64], output: &mut [f64]) -> Result<usize, Refusal>
        ensures same { slices self.new ≡ slices self.old }
        ensures ran { BlocksLent (kind (slices self.old)) (numbers self.old) (counts self.old) input.now output.old
            (refusal_in result) (count_in result) output.new (numbers self.new) (counts self.new) };

    // the number that refuses a record is not 0
    ghost numbered: { (t : Slices) → (kind t).filter.refusal ≢ no_refusal };

    // a record that passes its check passes it after a sample too
    ghost keeps: { (t : Slices) (s : (kind t).filter.State) (x : Float) → (kind t).filter.check s ≡ true → (kind t).filter.check
        ((kind t).filter.next s x) ≡ true };
}
