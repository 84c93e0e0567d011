// 01 "Tap record": the FIR filter of 002 fir.rs, run a sample or a block at a time. The Rust keeps its samples in a Deque;
// here they stand in an array, newest at place 0. `block` is added.
#![tactic(auto)]

ghost use Rattle.std.specs.Prelude.{◌≡◌};
ghost use Rattle.std.specs.Float.{binary64};
ghost use Rattle.fir_theory.specs.Fir.{finite_taps, check_taps, zeros, blank_taps, fir, from_coeffs, taps_by_default};
ghost use Rattle.fir_theory.specs.Lent.{lent_taps};
ghost use Rattle.limits.specs.Limits.{max_taps};
ghost use Rattle.fir.specs.View.{taps_view, made_view, counts_of};

use fir_step::Counts;
use runs::{BlockResult, Coefficients, FilterRecord, Refusal, ResetResult, UpdateResult};

#[derive(Clone, Copy)]
pub struct TapRecord {
    pub taps: [f64; TapRecord::MAX_TAPS],
    pub samples: [f64; TapRecord::MAX_TAPS],
    // How many taps there are, and how many samples are held. Counts beside arrays: there is no heap, and C's slices have all places.
    pub length: usize,
    pub held: usize,
    // Which window made the taps: Rectangular 0, Hamming 1, Hanning 2, Blackman 3, ready-made 4. A number and no enum: a record whose
    // code is above 4 is refused by 12.
    pub window: u8,
}

// As many +0 as a record has places.
fn no_numbers() -> [f64; TapRecord::MAX_TAPS]
    ensures { result ≡ zeros max_taps }
{
    [0.0; TapRecord::MAX_TAPS]
}

impl TapRecord {
    // The most taps that a record holds.
    pub const MAX_TAPS: usize = limits::MAX_TAPS;

    // The window code of ready-made taps, the largest.
    pub const READY_MADE: u8 = fir_step::READY_MADE as u8;

    // What a refused design returns: counts 0, numbers +0.
    pub fn blank() -> Self
        ensures { taps_view result ≡ blank_taps max_taps }
    {
        TapRecord {
            taps: no_numbers(),
            samples: no_numbers(),
            length: 0,
            held: 0,
            window: 0,
        }
    }

    // Its counts, as a lent record has them.
    fn counts(self) -> Counts
        ensures { result ≡ counts_of self }
    {
        Counts {
            length: self.length,
            held: self.held,
            window: usize::from(self.window),
        }
    }

    // Whether the record passes its check. One that does not is refused by 12.
    pub fn check(self) -> bool
        ensures { result ≡ check_taps max_taps (taps_view self) }
    {
        self.counts().check()
    }

    // A record of taps given ready-made. None or more than 64 are refused by 1, and taps that are not all finite by 25.
    pub fn from_coeffs(coeffs: &[f64]) -> Result<Self, Refusal>
        ensures { made_view result ≡ taps_by_default max_taps (from_coeffs max_taps coeffs.now) }
    {
        runs::by_default(TapRecord::from_coeffs_raw(coeffs))
    }

    // The same of any taps, finite or not.
    #[tactic(auto, using(std::proofs::lemmas::Bool::Decides::nat_tests), unfolding(fir_theory::specs::Fir::from_coeffs, runs::specs::Refusals::order_refused))]
    pub fn from_coeffs_raw(coeffs: &[f64]) -> Result<Self, Refusal>
        ensures { made_view result ≡ from_coeffs max_taps coeffs.now }
    {
        let length = coeffs.len();
        if length < 1 || length > TapRecord::MAX_TAPS {
            return Err(Refusal::InvalidOrder);
        }
        let mut taps = no_numbers();
        lists::copy(coeffs, &mut taps);
        Ok(TapRecord {
            taps,
            samples: no_numbers(),
            length,
            held: 0,
            window: TapRecord::READY_MADE,
        })
    }
}

impl Coefficients for TapRecord {
    ghost finite = { λ r. finite_taps (taps_view r) };

    // The first `length` taps, or all where they are fewer. Not inline: its caller would keep a copy of the record, which takes stack.
    #[inline(never)]
    fn coefficients_are_finite(self) -> bool {
        !runs::not_all_finite(&self.taps[..self.length.min(TapRecord::MAX_TAPS)])
    }
}

impl FilterRecord for TapRecord {
    ghost theory = { fir max_taps binary64 };

    ghost view = { taps_view };

    fn update(mut self, x: f64) -> UpdateResult<Self> {
        let mut counts = self.counts();
        let answer = fir_step::update(&self.taps, &mut self.samples, &mut counts, x);
        self.held = counts.held;
        UpdateResult {
            answer,
            record: self,
        }
    }

    // Makes all sample places +0 and the held count 0.
    fn reset(mut self) -> ResetResult<Self> {
        let mut counts = self.counts();
        let outcome = fir_step::reset(&self.taps, &mut self.samples, &mut counts);
        self.held = counts.held;
        ResetResult {
            outcome,
            record: self,
        }
    }

    fn block(mut self, input: &[f64], output: &mut [f64]) -> BlockResult<Self> {
        let mut counts = self.counts();
        let outcome = fir_block::block(&self.taps, &mut self.samples, &mut counts, input, output);
        self.held = counts.held;
        BlockResult {
            outcome,
            record: self,
        }
    }
}
