// f64::from_bits and f64::to_bits are undefined at a NaN. These are defined everywhere: there is one NaN, which every
// NaN pattern stands for, and its own pattern is 7FF8000000000000.
ghost use Rattle.std.specs.Prelude.{◌≡◌};
ghost use Rattle.std.specs.Float.{binary64};
ghost use Rattle.std.specs.Float.Ieee.{of_bits, to_bits};

use std::num::{f64_from_bits_with_nan, f64_to_bits_with_nan};

// The number with the bit pattern b.
pub fn from_bits(b: u64) -> f64
    ensures { result ≡ of_bits binary64 b }
{
    f64_from_bits_with_nan(b)
}

// The bit pattern of x.
pub fn to_bits(x: f64) -> u64
    ensures { result ≡ to_bits binary64 x }
{
    f64_to_bits_with_nan(x)
}
