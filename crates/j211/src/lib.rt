// 02's Q-1: a whole pulse filtered by a channel class of SAE J211-1, forward and then backward, in place.
#![tactic(auto)]

ghost use Rattle.std.specs.Prelude.{◌≡◌, IfOk};
ghost use Rattle.runs.specs.View.{refusal_in};
ghost use Rattle.j211.specs.J211.{number, Names, cutoff_of, warped_of, coefficients_of};
ghost use Rattle.j211.specs.J211.{output_of, next_of, forward, backward, refusal, filtered};

use runs::{Refusal, refuse_if};
use scalar::PI;

// What a class's cutoff is to its number.
const CUTOFF_RATIO: f64 = 2.0775; // 40009EB851EB851F

const SQRT_2: f64 = 1.4142135623730951; // 3FF6A09E667F3BCD

// The channel classes, under their numbers in the standard.
#[derive(Clone, Copy)]
enum Class {
    C60 = 60,
    C180 = 180,
    C600 = 600,
    C1000 = 1000,
}

// The standard's names: a0 to a2 weigh the samples, b1 and b2 the earlier outputs, and all five products are added.
#[derive(Clone, Copy)]
struct Coefficients {
    a0: f64,
    a1: f64,
    a2: f64,
    b1: f64,
    b2: f64,
}

// The two samples before this one and the outputs to them, newest first; by default zero history.
#[derive(Clone, Copy, Default)]
struct History {
    x1: f64,
    x2: f64,
    y1: f64,
    y2: f64,
}

impl TryFrom<usize> for Class {
    type Error = Refusal;

    ghost try_from_gives = { Names };

    #[tactic(auto, unfolding(crate::specs::J211::is_class))]
    fn try_from(class: usize) -> Result<Self, Refusal> {
        match class {
            60 => Ok(Class::C60),
            180 => Ok(Class::C180),
            600 => Ok(Class::C600),
            1000 => Ok(Class::C1000),
            _ => Err(Refusal::InvalidClass),
        }
    }
}

impl Class {
    // Its cutoff, in the unit of the rate.
    #[tactic(auto, unfolding(crate::specs::J211::cutoff_of))]
    fn cutoff(self) -> f64
        ensures { result ≡ cutoff_of (number self) }
    {
        f64::from(self as u16) * CUTOFF_RATIO
    }

    // w.
    #[tactic(auto, unfolding(crate::specs::J211::warped_of))]
    fn warped(self, sample_rate: f64) -> f64
        ensures { result ≡ warped_of (number self) sample_rate }
    {
        elementary::tan(PI * self.cutoff() / sample_rate)
    }
}

impl Coefficients {
    // The coefficients of w.
    #[tactic(auto, unfolding(crate::specs::J211::coefficients_of))]
    fn new(w: f64) -> Self
        ensures { result ≡ coefficients_of w }
    {
        let d = (1.0 + SQRT_2 * w) + w * w;
        let a0 = w * w / d;
        Coefficients {
            a0,
            a1: 2.0 * a0,
            a2: a0,
            b1: -2.0 * (w * w - 1.0) / d,
            b2: ((-1.0 + SQRT_2 * w) - w * w) / d,
        }
    }
}

impl History {
    // The output to a sample, and both in the history.
    #[tactic(auto, unfolding(crate::specs::J211::output_of))]
    fn step(&mut self, k: Coefficients, x: f64) -> f64
        ensures output { result ≡ output_of k self.old x }
        ensures history { self.new ≡ next_of self.old x (output_of k self.old x) }
    {
        let y = k.a0 * x + k.a1 * self.x1 + k.a2 * self.x2 + k.b1 * self.y1 + k.b2 * self.y2;
        *self = History {
            x1: x,
            x2: self.x1,
            y1: y,
            y2: self.y1,
        };
        y
    }
}

// A pass from the first place to the last.
fn pass_forward(k: Coefficients, buffer: &mut [f64])
    ensures { buffer.new ≡ forward k buffer.old }
{
    let mut h = History::default();
    for place in buffer.iter_mut() {
        *place = h.step(k, *place);
    }
}

// A pass from the last place to the first. The places are counted: what is written through `iter_mut().rev()` is not known
// behind the loop.
fn pass_backward(k: Coefficients, buffer: &mut [f64])
    ensures { buffer.new ≡ backward k buffer.old }
{
    let mut h = History::default();
    for i in (0..buffer.len()).rev() {
        buffer[i] = h.step(k, buffer[i]);
    }
}

// The class of a number, where neither it nor the rate is refused.
#[tactic(auto, unfolding(crate::specs::J211::refusal))]
fn checked(class: usize, sample_rate: f64) -> Result<Class, Refusal>
    ensures refused { refusal_in result ≡ refusal class sample_rate }
    ensures class { IfOk result (λ k. number k ≡ class) }
{
    let class = Class::try_from(class)?;
    refuse_if(
        design_checks::not_positive(sample_rate),
        Refusal::InvalidSampleRate,
    )?;
    refuse_if(
        class.cutoff() >= sample_rate * 0.5,
        Refusal::InvalidFrequency,
    )?;
    Ok(class)
}

// A pulse through a class, forward and then backward, each pass from zero history; where the class or the rate is refused,
// the buffer is as it was. Where a place of an accepted pulse is a NaN, it may be any NaN; one NaN among the samples makes
// every place a NaN.
#[tactic(auto, using(runs::proofs::Default::number_above_zero), unfolding(crate::specs::J211::filtered, crate::specs::J211::both_ways))]
pub fn filter(class: usize, sample_rate: f64, buffer: &mut [f64]) -> Result<(), Refusal>
    ensures { (refusal_in result ≡ refusal class sample_rate) × (buffer.new ≡ filtered class sample_rate buffer.old) }
{
    let class = checked(class, sample_rate)?;
    let k = Coefficients::new(class.warped(sample_rate));
    pass_forward(k, buffer);
    pass_backward(k, buffer);
    Ok(())
}
