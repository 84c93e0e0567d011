// A tap record that a caller lends.
ghost use Rattle.std.specs.Prelude.{◌≡◌, [], ◌∷◌, List, Float, get_or};
ghost use Rattle.std.specs.Float.{binary64};
ghost use Rattle.std.specs.Borrow.{Bor, GName};
ghost use Rattle.limits.specs.Limits.{max_taps};
ghost use Rattle.c_calls.specs.Kinds.{fir_kind};
ghost use Rattle.c_blocks.specs.Lent.{CountsIn};
ghost use Rattle.fir_theory.proofs.Laws.{check-next};

use super::lent::Lent;
use c_layout::COUNTS;
use fir_step::Counts;
use runs::{Answer, Refusal};

// Its taps, its samples, and its counts: the length, the held count and the window code. No call changes the taps.
#[derive(Drop)]
pub struct LentTaps<'t, 'a> {
    pub taps: &'t [f64],
    pub samples: &'a mut [f64],
    pub counts: &'a mut [usize],
}

impl LentTaps<'_, '_> {
    // The counts, where there are three.
    fn read(&self) -> Option<Counts>
        ensures { CountsIn result self.now.counts.now }
    {
        let counts = &*self.counts;
        let &[length, held, window] = counts.as_array::<COUNTS>()?;
        Some(Counts {
            length,
            held,
            window,
        })
    }

    // Counts into their three places, where the length and the window code stand already: they are not kept over a call, which would take
    // stack.
    fn write(&mut self, c: Counts)
        requires { self.old.counts.now ≡ c.length ∷ get_or self.old.counts.now 1 0 ∷ c.window ∷ [] }
        ensures same { (self.new.taps ≡ self.old.taps) × (self.new.samples.ghost_name ≡ self.old.samples.ghost_name) ×
            (self.new.counts.ghost_name ≡ self.old.counts.ghost_name) }
        ensures samples { self.new.samples.now ≡ self.old.samples.now }
        ensures counts { self.new.counts.now ≡ c.length ∷ c.held ∷ c.window ∷ [] }
    {
        let counts = &mut *self.counts;
        counts[1] = c.held;
    }
}

impl Lent for LentTaps<'_, '_> {
    ghost Slices = { Bor (List Float) × GName × GName };

    ghost slices = { λ s. (s.taps, s.samples.ghost_name, s.counts.ghost_name) };

    ghost kind = { λ t. fir_kind t.0.now };

    ghost numbers = { λ s. s.samples.now };

    ghost counts = { λ s. s.counts.now };

    fn update(&mut self, x: f64) -> Answer {
        let Some(mut counts) = self.read() else {
            return Answer::Refused(Refusal::BadCall);
        };
        let answer = fir_step::update(self.taps, self.samples, &mut counts, x);
        self.write(counts);
        answer
    }

    fn reset(&mut self) -> Result<(), Refusal> {
        let Some(mut counts) = self.read() else {
            return Err(Refusal::BadCall);
        };
        let outcome = fir_step::reset(self.taps, self.samples, &mut counts);
        self.write(counts);
        outcome
    }

    fn block(&mut self, input: &[f64], output: &mut [f64]) -> Result<usize, Refusal> {
        let Some(mut counts) = self.read() else {
            return Err(Refusal::BadCall);
        };
        let outcome = fir_block::block(self.taps, self.samples, &mut counts, input, output);
        self.write(counts);
        outcome
    }

    ghost numbered = { λ t h. cc };

    ghost keeps = { λ t s x h. check-next max_taps s x h };
}
