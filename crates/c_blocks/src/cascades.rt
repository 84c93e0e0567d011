// A cascade that a caller lends.
ghost use Rattle.std.specs.Prelude.{◌≡◌, true, option_map};
ghost use Rattle.std.specs.Borrow.{GName};
ghost use Rattle.std.specs.Float.{binary64};
ghost use Rattle.cascade.specs.View.{cascade_view};
ghost use Rattle.c_layout.specs.Layout.{cascade_in, cascade_places, cascade_numbers, cascade_counts};
ghost use Rattle.c_calls.specs.Kinds.{cascade_kind};
ghost use Rattle.cascade_theory.proofs.Laws.{check-next};

use super::lent::Lent;
use cascade::Cascade;
use runs::{Answer, FilterRecord, Refusal};

// Its numbers, and its counts: the section count, the first-order flag and the cloud flag.
#[derive(Drop)]
pub struct LentCascade<'a> {
    pub numbers: &'a mut [f64],
    pub counts: &'a mut [usize],
}

impl LentCascade<'_> {
    // The cascade that the slices hold. Inline, so that it is not put together in memory, which takes stack.
    #[inline(always)]
    fn read(&self) -> Option<Cascade>
        ensures { option_map cascade_view result ≡ cascade_in self.now.numbers.now self.now.counts.now }
    {
        let numbers = &*self.numbers;
        let counts = &*self.counts;
        c_layout::cascade_in(numbers, counts)
    }

    // A cascade into the slices, which have its places.
    fn write(&mut self, c: Cascade)
        requires { cascade_places self.old.numbers.now self.old.counts.now ≡ true }
        ensures same { (self.new.numbers.ghost_name ≡ self.old.numbers.ghost_name) × (self.new.counts.ghost_name ≡ self.old.counts.ghost_name) }
        ensures numbers { self.new.numbers.now ≡ cascade_numbers (cascade_view c) }
        ensures counts { self.new.counts.now ≡ cascade_counts (cascade_view c) }
    {
        let numbers = &mut *self.numbers;
        let counts = &mut *self.counts;
        c_layout::write(c, numbers, counts);
    }
}

impl Lent for LentCascade<'_> {
    ghost Slices = { GName × GName };

    ghost slices = { λ s. (s.numbers.ghost_name, s.counts.ghost_name) };

    ghost kind = { λ _. cascade_kind };

    ghost numbers = { λ s. s.numbers.now };

    ghost counts = { λ s. s.counts.now };

    fn update(&mut self, x: f64) -> Answer {
        let Some(cascade) = self.read() else {
            return Answer::Refused(Refusal::BadCall);
        };
        let after = cascade.update(x);
        if after.answer.accepted().is_ok() {
            self.write(after.record);
        }
        after.answer
    }

    fn reset(&mut self) -> Result<(), Refusal> {
        let Some(cascade) = self.read() else {
            return Err(Refusal::BadCall);
        };
        let after = cascade.reset();
        after.outcome?;
        self.write(after.record);
        Ok(())
    }

    fn block(&mut self, input: &[f64], output: &mut [f64]) -> Result<usize, Refusal> {
        let Some(cascade) = self.read() else {
            return Err(Refusal::BadCall);
        };
        let after = cascade.block(input, output);
        let clouded = after.outcome?;
        self.write(after.record);
        Ok(clouded)
    }

    ghost numbered = { λ t h. cc };

    ghost keeps = { λ t s x h. check-next binary64 s x h };
}
