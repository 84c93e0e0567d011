// A second-order section in transposed direct form II: 000's ButterworthBiquad and 001's ChebBiquad, which are the same.
ghost use Rattle.std.specs.Prelude.{◌≡◌};
ghost use Rattle.std.specs.Float.{binary64};
ghost use Rattle.cascade_theory.specs.Section.{SectionRecord, new_section, identity_section, blank_section, cleared_section, section_out, section_next};
ghost use Rattle.cascade_theory.specs.Coefficients.{coefficients_of_section};
ghost use Rattle.runs.specs.Runs.{all_finite};
ghost use Rattle.sections.specs.View.{section_view};

use super::part::{Part, ProcessResult};
use runs::Coefficients;

// Coefficients and two carried values.
#[derive(Clone, Copy)]
pub struct Section {
    pub b0: f64,
    pub b1: f64,
    pub b2: f64,
    pub a1: f64,
    pub a2: f64,
    pub w1: f64,
    pub w2: f64,
}

impl Section {
    // A section with these coefficients and carried values +0.
    pub fn new(b0: f64, b1: f64, b2: f64, a1: f64, a2: f64) -> Self
        ensures { section_view result ≡ new_section b0 b1 b2 a1 a2 }
    {
        Section {
            b0,
            b1,
            b2,
            a1,
            a2,
            w1: 0.0,
            w2: 0.0,
        }
    }

    // A section that passes a sample on.
    pub fn identity() -> Self
        ensures { section_view result ≡ identity_section }
    {
        Section::new(1.0, 0.0, 0.0, 0.0, 0.0)
    }

    // An unused section of a design: all numbers +0.
    pub fn blank() -> Self
        ensures { section_view result ≡ blank_section }
    {
        Section::new(0.0, 0.0, 0.0, 0.0, 0.0)
    }
}

impl Coefficients for Section {
    ghost finite = { λ s. all_finite (coefficients_of_section (section_view s)) };

    fn coefficients_are_finite(self) -> bool {
        !runs::not_all_finite(&[self.b0, self.b1, self.b2, self.a1, self.a2])
    }
}

impl Part for Section {
    ghost Record = { SectionRecord };

    ghost view = { section_view };

    ghost out = { section_out binary64 };

    ghost next = { section_next binary64 };

    ghost cleared = { cleared_section };

    // y = b0·x + w1; w1 becomes (b1·x − a1·y) + w2; w2 becomes b2·x − a2·y.
    fn process(self, x: f64) -> ProcessResult<Self> {
        let y = self.b0 * x + self.w1;
        let w1 = (self.b1 * x - self.a1 * y) + self.w2;
        let w2 = self.b2 * x - self.a2 * y;
        ProcessResult {
            out: y,
            next: Section { w1, w2, ..self },
        }
    }

    fn reset(self) -> Self {
        Section::new(self.b0, self.b1, self.b2, self.a1, self.a2)
    }
}

// The Rust's process: the same, changing a borrowed section.
pub fn process(section: &mut Section, x: f64) -> f64
    ensures { (result ≡ section_out binary64 (section_view section.old) x)
        × (section_view section.new ≡ section_next binary64 (section_view section.old) x) }
{
    let p = section.process(x);
    *section = p.next;
    p.out
}
