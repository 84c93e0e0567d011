// A first-order part: 000's ButterworthFirstOrder and 001's ChebFirstOrder, which are the same.
ghost use Rattle.std.specs.Prelude.{◌≡◌};
ghost use Rattle.std.specs.Float.{binary64};
ghost use Rattle.cascade_theory.specs.FirstOrder.{FirstOrderRecord, new_first, identity_first, blank_first, cleared_first, first_out, first_next};
ghost use Rattle.cascade_theory.specs.Coefficients.{coefficients_of_first};
ghost use Rattle.runs.specs.Runs.{all_finite};
ghost use Rattle.sections.specs.View.{first_view};

use super::part::{Part, ProcessResult};
use runs::Coefficients;

// Coefficients and one carried value.
#[derive(Clone, Copy)]
pub struct FirstOrder {
    pub b0: f64,
    pub b1: f64,
    pub a1: f64,
    pub w: f64,
}

impl FirstOrder {
    // A part with these coefficients and carried value +0.
    pub fn new(b0: f64, b1: f64, a1: f64) -> Self
        ensures { first_view result ≡ new_first b0 b1 a1 }
    {
        FirstOrder { b0, b1, a1, w: 0.0 }
    }

    // A part that passes a sample on.
    pub fn identity() -> Self
        ensures { first_view result ≡ identity_first }
    {
        FirstOrder::new(1.0, 0.0, 0.0)
    }

    // The unused part of a design: all numbers +0.
    pub fn blank() -> Self
        ensures { first_view result ≡ blank_first }
    {
        FirstOrder::new(0.0, 0.0, 0.0)
    }
}

impl Coefficients for FirstOrder {
    ghost finite = { λ p. all_finite (coefficients_of_first (first_view p)) };

    fn coefficients_are_finite(self) -> bool {
        !runs::not_all_finite(&[self.b0, self.b1, self.a1])
    }
}

impl Part for FirstOrder {
    ghost Record = { FirstOrderRecord };

    ghost view = { first_view };

    ghost out = { first_out binary64 };

    ghost next = { first_next binary64 };

    ghost cleared = { cleared_first };

    // y = b0·x + w, then w becomes b1·x − a1·y.
    fn process(self, x: f64) -> ProcessResult<Self> {
        let y = self.b0 * x + self.w;
        let w = self.b1 * x - self.a1 * y;
        ProcessResult {
            out: y,
            next: FirstOrder { w, ..self },
        }
    }

    fn reset(self) -> Self {
        FirstOrder::new(self.b0, self.b1, self.a1)
    }
}
