// What a second-order section and a first-order part have in common: a sample through one, and its reset.
ghost use Rattle.std.specs.Prelude.{◌≡◌, Float, cond};

use runs::Coefficients;

// What comes out of a part, and the part after it.
#[derive(Clone, Copy)]
pub struct ProcessResult<P> {
    pub out: f64,
    pub next: P,
}

// A part of a cascade: coefficients and carried values.
pub trait Part: Coefficients {
    // what it is read as
    ghost Record: { Type 0 };

    ghost view: { Self → Record };

    // what comes out of it when a sample goes in, it after the sample, and it after a reset
    ghost out: { Record → Float → Float };

    ghost next: { Record → Float → Record };

    ghost cleared: { Record → Record };

    // A sample through the part.
    fn process(self, x: f64) -> ProcessResult<Self>
        ensures { (result.out ≡ out (view self) x) × (view result.next ≡ next (view self) x) };

    // Sets the carried values to +0.
    fn reset(self) -> Self
        ensures { view result ≡ cleared (view self) };
}

// A sample through a part where it is used.
pub fn process_if<P: Part>(used: bool, part: P, x: f64) -> ProcessResult<P>
    ensures { (result.out ≡ cond used (P.out (P.view part) x) x)
        × (P.view result.next ≡ cond used (P.next (P.view part) x) (P.view part)) }
{
    if used {
        part.process(x)
    } else {
        ProcessResult { out: x, next: part }
    }
}
