// What the crate `exports` hands to C, as a static library: for accuracy/. Not part of what the recorder runs.
#![tactic(auto)]

ghost use Rattle.std.specs.Prelude.{◌≡◌};
ghost use Rattle.exports.specs.Numbered.{numbered};

use exports::{Function, value};

// The function with that number, at x; a number that none has gives NaN.
#[tactic(auto, using(exports::proofs::Laws::none_rules))]
#[unsafe(no_mangle)]
pub extern "C" fn recorder_elementary(function: u64, x: f64) -> f64
    ensures { result ≡ numbered function x }
{
    Function::try_from(function).map_or(f64::NAN, |f| value(f, x))
}
