// The numbers that digits write: counts, and decimals as the nearest double.
#![tactic(auto)]

ghost use Rattle.std.specs.Prelude.{◌≡◌, ◌≤◌, ◌<◌, ◌^◌, min, pos};
ghost use Rattle.std.specs.Float.{binary64};
ghost use Rattle.std.specs.Float.Ieee.{of_int};
ghost use Rattle.text_decimals.specs.Decimals.{digit, value_after, count_of, decimal};

use text_tokens::all_digits;

// 10^15, which no decimal's digits may reach.
const LIMIT: u64 = 1_000_000_000_000_000;

// The bits of 10^0 to 10^22, each exact.
const POWERS_OF_TEN: [u64; 23] = [
    0x3FF0000000000000,
    0x4024000000000000,
    0x4059000000000000,
    0x408F400000000000,
    0x40C3880000000000,
    0x40F86A0000000000,
    0x412E848000000000,
    0x416312D000000000,
    0x4197D78400000000,
    0x41CDCD6500000000,
    0x4202A05F20000000,
    0x42374876E8000000,
    0x426D1A94A2000000,
    0x42A2309CE5400000,
    0x42D6BCC41E900000,
    0x430C6BF526340000,
    0x4341C37937E08000,
    0x4376345785D8A000,
    0x43ABC16D674EC800,
    0x43E158E460913D00,
    0x4415AF1D78B58C40,
    0x444B1AE4D6E2EF50,
    0x4480F0CF064DD592,
];

// The value of a digit, and 0 of any other byte. By ranges of bytes: `to_digit` of a char takes longer (docs/SPEED.md).
#[tactic(auto, using(std::proofs::lemmas::Bool::Decides::nat_tests), unfolding(crate::specs::Decimals::digit))]
pub fn digit(b: u8) -> u64
    ensures value { result ≡ digit b }
    ensures small { result < 16 }
{
    match b {
        b'0'..=b'9' => u64::from(b - b'0'),
        b'A'..=b'F' => u64::from(b - b'A') + 10,
        b'a'..=b'f' => u64::from(b - b'a') + 10,
        _ => 0,
    }
}

// The number that decimal digits write after n, or LIMIT where it is that or more.
fn decimal_after(mut n: u64, digits: &[u8]) -> u64
    requires { n ≤ 10 ^ 15 }
    ensures { result ≡ min (value_after 10 n digits.now) (10 ^ 15) }
{
    for b in digits {
        n = (n * 10 + digit(*b)).min(LIMIT);
    }
    n
}

// A count, or that the token is none.
#[tactic(auto, using(crate::proofs::Digits::nine_digits), unfolding(crate::specs::Decimals::count_of))]
pub fn count_token(token: &[u8]) -> Option<u64>
    ensures { result ≡ count_of token.now }
{
    if all_digits(token) && (1..=9).contains(&token.len()) {
        Some(decimal_after(0, token))
    } else {
        None
    }
}

// 10^k.
fn power_of_ten(k: usize) -> f64
    requires { k ≤ 22 }
    ensures { result ≡ of_int binary64 (pos (10 ^ k)) }
{
    ieee::from_bits(POWERS_OF_TEN[k])
}

// Digits before a point and digits after it, or that they write no float.
pub fn decimal(whole: &[u8], fraction: &[u8]) -> Option<f64>
    ensures { result ≡ decimal whole.now fraction.now }
{
    let before = decimal_after(0, whole);
    let value = decimal_after(before, fraction);
    let k = fraction.len();
    if whole.is_empty() || value >= LIMIT || k > 22 {
        return None;
    }
    Some((value as f64) / power_of_ten(k))
}
