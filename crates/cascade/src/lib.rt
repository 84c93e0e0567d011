// 01 "Cascade": four second-order sections, a first-order part, and running them, a sample or a block at a time. The
// Rust has this once for each kind of filter (ButterworthLp, ButterworthHp, ButterworthBp, ChebyshevI, ChebyshevII); here
// it stands once. `block` is added.
#![tactic(auto)]

ghost use Rattle.std.specs.Prelude.{◌≡◌, true, ◌||◌, ◌≤◌, length, MatchOption};
ghost use Rattle.std.specs.Float.{binary64};
ghost use Rattle.runs.specs.Runs.{block};
ghost use Rattle.cascade_theory.specs.Cascade.{value, moved, clouding, next, check_cascade, blank_cascade, cascade};
ghost use Rattle.cascade_theory.specs.Coefficients.{finite_coefficients};
ghost use Rattle.cascade_theory.specs.Skewed.{Skewable};
ghost use Rattle.cascade.specs.View.{cascade_view, block_view};

use runs::{Answer, BlockResult, Coefficients, FilterRecord, Refusal, ResetResult, UpdateResult};
use sections::{
    FirstOrder, Part, ProcessResult, Section, pass_sections, process_if, reset_sections,
    sections_are_finite,
};

#[derive(Clone, Copy)]
pub struct Cascade {
    pub sections: [Section; Cascade::MAX_SECTIONS],
    // How many of the sections are used, from section 0 on. A count beside an array: there is no heap, and C's slices have all four.
    pub count: usize,
    pub first: FirstOrder,
    // Whether the first-order part is used. A flag beside it and no `Option`: a part that is not used has numbers too, which stand
    // in C's slices (include/pulse.h).
    pub has_first: bool,
    // Whether a sample since design or reset was not finite.
    pub clouded: bool,
}

// The mark, 01 "Run answer": whether the answer y to x is Clouded, of the cascade before and after it.
#[tactic(auto, unfolding(cascade_theory::specs::Cascade::clouding))]
fn clouds(before: Cascade, x: f64, y: f64, after: Cascade) -> bool
    ensures { result ≡ (before.clouded || clouding (cascade_view before) x y (cascade_view after)) }
{
    before.clouded || !scalar::is_finite(x)
}

impl Cascade {
    // How many sections there are.
    pub const MAX_SECTIONS: usize = limits::MAX_SECTIONS;

    // What a refused design returns: counts 0, flags off, numbers +0.
    pub fn blank() -> Self
        ensures { cascade_view result ≡ blank_cascade }
    {
        Cascade {
            sections: [Section::blank(); Cascade::MAX_SECTIONS],
            count: 0,
            first: FirstOrder::blank(),
            has_first: false,
            clouded: false,
        }
    }

    // Whether the record passes its check. One that does not is refused by 11.
    #[tactic(auto, unfolding(cascade_theory::specs::Cascade::check_cascade))]
    pub fn check(self) -> bool
        ensures { result ≡ check_cascade (cascade_view self) }
    {
        self.count <= Cascade::MAX_SECTIONS && (self.count > 0 || self.has_first)
    }

    // The number answered to x, and the cascade with its carried values after it. The flag is as it was.
    #[tactic(auto, unfolding(cascade_theory::specs::Cascade::value, cascade_theory::specs::Cascade::moved))]
    fn moved(self, x: f64) -> ProcessResult<Self>
        ensures { (result.out ≡ value binary64 (cascade_view self) x) × (cascade_view result.next ≡ moved binary64 (cascade_view self) x) }
    {
        let first = process_if(self.has_first, self.first, x);
        let ProcessResult {
            out,
            next: sections,
        } = pass_sections(self.sections, self.count, first.out);
        ProcessResult {
            out,
            next: Cascade {
                sections,
                first: first.next,
                ..self
            },
        }
    }

    // The same with the flag after x.
    #[tactic(auto, unfolding(cascade_theory::specs::Cascade::next, cascade_theory::specs::Cascade::mark))]
    fn pass(self, x: f64) -> ProcessResult<Self>
        ensures { (result.out ≡ value binary64 (cascade_view self) x) × (cascade_view result.next ≡ next binary64 (cascade_view self) x) }
    {
        let m = self.moved(x);
        let clouded = clouds(self, x, m.out, m.next);
        ProcessResult {
            out: m.out,
            next: Cascade { clouded, ..m.next },
        }
    }

    // What a refused block returns.
    fn refused_block(self, refusal: Refusal) -> BlockResult<Self>
        ensures { result ≡ record { outcome = Err refusal; «record» = self } }
    {
        BlockResult {
            outcome: Err(refusal),
            record: self,
        }
    }

    // A block of samples, one after the other.
    fn plain_block(self, input: &[f64], output: &mut [f64]) -> BlockResult<Self>
        requires { (check_cascade (cascade_view self) ≡ true) × (length input.now ≤ length output.old) }
        ensures { block_view result output.new ≡ block (cascade binary64) (cascade_view self) input.now output.old }
    {
        let mut cascade = self;
        let mut clouded: usize = 0;
        for (i, x) in input.iter().enumerate() {
            let p = cascade.pass(*x);
            output[i] = p.out;
            cascade = p.next;
            clouded += usize::from(cascade.clouded);
        }
        BlockResult {
            outcome: Ok(clouded),
            record: cascade,
        }
    }

    // Whether a block of these samples can run skewed, if they are enough.
    fn skewable(self, input: &[f64]) -> bool
        ensures { result ≡ true → 3 ≤ length input.now → Skewable (cascade_view self) input.now }
    {
        self.count == Cascade::MAX_SECTIONS
            && !self.has_first
            && !self.clouded
            && !runs::not_all_finite(input)
    }

    // The cascade after a block with each section one sample behind the section before it, where the block can run so; else
    // nothing changes.
    fn skewed_block(self, input: &[f64], output: &mut [f64]) -> Option<Self>
        ensures { MatchOption result (output.new ≡ output.old)
            (λ after. record { refusal = 0; clouded = 0; state = cascade_view after; output = output.new }
            ≡ block (cascade binary64) (cascade_view self) input.now output.old) }
    {
        if !self.skewable(input) {
            return None;
        }
        let sections = pipeline::run(self.sections, input, output)?;
        Some(Cascade { sections, ..self })
    }
}

impl Coefficients for Cascade {
    ghost finite = { λ c. finite_coefficients (cascade_view c) };

    // Those of the used parts.
    #[tactic(auto, using(cascade_theory::proofs::Coefficients::used_finite))]
    fn coefficients_are_finite(self) -> bool {
        (!self.has_first || self.first.coefficients_are_finite())
            && sections_are_finite(self.sections, self.count)
    }
}

impl FilterRecord for Cascade {
    ghost theory = { cascade binary64 };

    ghost view = { cascade_view };

    fn update(self, x: f64) -> UpdateResult<Self> {
        if !self.check() {
            return UpdateResult {
                answer: Answer::Refused(Refusal::BadCascade),
                record: self,
            };
        }
        let p = self.pass(x);
        let answer = if p.next.clouded {
            Answer::Clouded(p.out)
        } else {
            Answer::Clear(p.out)
        };
        UpdateResult {
            answer,
            record: p.next,
        }
    }

    // Sets all carried values to +0, those of unused parts too, and clears the cloud flag.
    fn reset(self) -> ResetResult<Self> {
        if !self.check() {
            return ResetResult {
                outcome: Err(Refusal::BadCascade),
                record: self,
            };
        }
        ResetResult {
            outcome: Ok(()),
            record: Cascade {
                sections: reset_sections(self.sections),
                first: self.first.reset(),
                clouded: false,
                ..self
            },
        }
    }

    fn block(self, input: &[f64], output: &mut [f64]) -> BlockResult<Self> {
        if !self.check() {
            return self.refused_block(Refusal::BadCascade);
        }
        if output.len() < input.len() {
            return self.refused_block(Refusal::ShortOutput);
        }
        match self.skewed_block(input, output) {
            Some(record) => BlockResult {
                outcome: Ok(0),
                record,
            },
            None => self.plain_block(input, output),
        }
    }
}
