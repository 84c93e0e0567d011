// 02's Q-3: what a default form makes of what its raw form returned.
ghost use Rattle.std.specs.Prelude.{◌≡◌, Bool};
ghost use Rattle.runs.specs.View.{default_of};

use super::refusal::{Refusal, refuse_if};

// A record that has coefficients.
pub trait Coefficients: Copy {
    // whether they are all finite
    ghost finite: { Self → Bool };

    fn coefficients_are_finite(self) -> bool
        ensures { result ≡ finite self };
}

// What was made and is not all finite is refused by 25; anything else is as it was made.
pub fn by_default<R: Coefficients>(made: Result<R, Refusal>) -> Result<R, Refusal>
    ensures { result ≡ default_of R.finite made }
{
    let record = made?;
    refuse_if(
        !record.coefficients_are_finite(),
        Refusal::NonFiniteCoefficient,
    )?;
    Ok(record)
}
