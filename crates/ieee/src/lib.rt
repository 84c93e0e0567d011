// What IEEE 754 asks of arithmetic and square root stands in specs/; that the language's own +, -, * and / meet it,
// at both formats, is proved in proofs/Arithmetic.antt. Here is the square root, which the language lacks: digit by
// digit from the bit pattern, by shifts, comparisons, additions and subtractions.
#![tactic(auto)]

mod bits;

ghost use Rattle.std.specs.Prelude.{◌≡◌, ◌+◌, ◌-◌, ◌*◌, ◌/◌, ◌%◌, ◌^◌, ◌<◌, ◌≤◌};
ghost use Rattle.std.specs.Float.{binary64};
ghost use Rattle.ieee.specs.Digits.{Rooted, NearestRoot};
ghost use Rattle.ieee.specs.Sqrt.{Sqrt, sqrt_of};

pub use bits::{from_bits, to_bits};

// 2 ^ 52: the leading digit of a significand of 53 digits, and the weight of the exponent's field in a bit pattern.
const LEADING: u64 = 0x10_0000_0000_0000;

// The bit pattern of +infinity. Those of the finite numbers above zero lie between 0 and this one.
const INFINITY: u64 = 0x7ff0_0000_0000_0000;

// The whole number nearest to √(m * 2 ^ 52), digit by digit. With q the digits so far and w the weight of the last
// of them, y * w is what is left of m * 2 ^ 52 when the square of q is taken off.
fn nearest_root(m: u64) -> u64
    requires { (2 ^ 52 ≤ m) × (m ≤ 2 ^ 54 - 2) }
    ensures { NearestRoot m result }
{
    let mut q = LEADING;
    let mut y = m - LEADING;
    for place in (0..52u32).rev() {
        let w = 1 << place;
        y += y;
        let t = q + q + w;
        if t <= y {
            y -= t;
            q += w;
        }
    }
    if q < y { q + 1 } else { q }
}

// The bit pattern of √(m * 2 ^ (e - 52)) smallest values: half the exponent, and the root of m or, where e is odd,
// of 2 * m.
fn root_of_digits(m: u64, e: u64) -> u64
    requires { (2 ^ 52 ≤ m) × (m < 2 ^ 53) × (e ≤ 2098) }
    ensures { Rooted (m * 2 ^ e) result }
{
    let k = (e >> 1) + 485;
    if e % 2 == 0 {
        return (k << 52) + nearest_root(m);
    }
    (k << 52) + nearest_root(m + m)
}

// The bit pattern of the root of the finite number above zero whose bit pattern is b. A subnormal's digits are first
// brought up to 53, one by one, while they are fewer: a processor may count leading zeros by a multiplication.
fn root_bits(b: u64) -> u64
    requires { (0 < b) × (b < 2047 * 2 ^ 52) }
    ensures subnormal { b < 2 ^ 52 → Rooted (b * 2 ^ 52) result }
    ensures normal { 2 ^ 52 ≤ b → Rooted ((2 ^ 52 + b % 2 ^ 52) * 2 ^ (b / 2 ^ 52 + 51)) result }
{
    if LEADING <= b {
        return root_of_digits(LEADING + b % LEADING, (b >> 52) + 51);
    }
    let mut m = b;
    let mut e = 52;
    while m < LEADING {
        m += m;
        e -= 1;
    }
    root_of_digits(m, e)
}

// 01 "sqrt": correctly rounded; ±0, +infinity and NaN give themselves, below 0 NaN. Its contract says so twice: by
// the definition that computes, `sqrt_of`, and by IEEE 754's own words, `Sqrt`.
pub fn sqrt(x: f64) -> f64
    ensures value { result ≡ sqrt_of binary64 x }
    ensures correctly_rounded { Sqrt binary64 x result }
{
    if x < 0.0 {
        return f64::NAN;
    }
    if 0.0 < x {
        let b = x.to_bits();
        if b < INFINITY {
            return f64::from_bits(root_bits(b));
        }
    }
    x
}
