// Floats in their written forms: bits, names, or decimals with a sign and a point; and bytes as pairs of hexadecimal digits.
#![tactic(auto)]

ghost use Rattle.std.specs.Prelude.{◌≡◌, ◌+◌, ◌*◌, ◌/◌, ◌≤◌, min, length};
ghost use Rattle.std.specs.Char.{is_ascii_digit};
ghost use Rattle.std.specs.List.{prefix_len};
ghost use Rattle.lists.specs.Copies.{copied};
ghost use Rattle.text_decimals.specs.Decimals.{digit, value_after};
ghost use Rattle.text_numbers.specs.Numbers.{unsigned, signed, named, bits_of, float_of};
ghost use Rattle.text_numbers.specs.Pairs.{is_pairs, pairs_of};

use text_decimals::{decimal, digit};
use text_tokens::{all_digits, all_hex_digits};

// The number that hexadecimal digits write.
fn hexadecimal(digits: &[u8]) -> u64
    requires { length digits.now ≤ 16 }
    ensures { result ≡ value_after 16 0 digits.now }
{
    let mut value: u64 = 0;
    for b in digits {
        value = value * 16 + digit(*b);
    }
    value
}

// How many digits a token begins with.
fn leading_digits(token: &[u8]) -> usize
    ensures { result ≡ prefix_len is_ascii_digit token.now }
{
    token.iter().take_while(|b| b.is_ascii_digit()).count()
}

// Digits, and optionally a point and more digits.
fn unsigned(token: &[u8]) -> Option<f64>
    ensures { result ≡ unsigned token.now }
{
    let (whole, rest) = token.split_at(leading_digits(token));
    match rest {
        [] => decimal(whole, &[]),
        [b'.', fraction @ ..] => {
            if all_digits(fraction) && !fraction.is_empty() {
                decimal(whole, fraction)
            } else {
                None
            }
        }
        _ => None,
    }
}

// An optional `-`.
fn signed(token: &[u8]) -> Option<f64>
    ensures { result ≡ signed token.now }
{
    match token {
        [b'-', rest @ ..] => unsigned(rest).map(|x| -x),
        _ => unsigned(token),
    }
}

// `NaN`, `inf`, `-inf`, or a decimal.
fn named(token: &[u8]) -> Option<f64>
    ensures { result ≡ named token.now }
{
    match token {
        b"NaN" => Some(f64::NAN),
        b"inf" => Some(f64::INFINITY),
        b"-inf" => Some(f64::NEG_INFINITY),
        _ => signed(token),
    }
}

// The 64 bits that exactly 16 hexadecimal digits write, or that the token is none.
#[tactic(auto, unfolding(crate::specs::Numbers::bits_of))]
pub fn bits_token(token: &[u8]) -> Option<u64>
    ensures { result ≡ bits_of token.now }
{
    if token.len() != 16 || !all_hex_digits(token) {
        return None;
    }
    Some(hexadecimal(token))
}

// A float, or that the token is none.
#[tactic(auto, unfolding(crate::specs::Numbers::bits_of, crate::specs::Numbers::float_of))]
pub fn float_token(token: &[u8]) -> Option<f64>
    ensures { result ≡ float_of token.now }
{
    match bits_token(token) {
        Some(bits) => Some(ieee::from_bits(bits)),
        None => named(token),
    }
}

// Whether a token is pairs of hexadecimal digits.
#[tactic(auto, unfolding(crate::specs::Pairs::is_pairs))]
pub fn is_pairs(token: &[u8]) -> bool
    ensures { result ≡ is_pairs token.now }
{
    token.len() % 2 == 0 && all_hex_digits(token)
}

// The byte of two digits, the higher one first.
fn pair(high: u8, low: u8) -> u8
    ensures { result ≡ digit high * 16 + digit low }
{
    (digit(high) * 16 + digit(low)) as u8
}

// The bytes that pairs write, into the first places, as far as both go. Returns how many.
pub fn put_pairs(token: &[u8], bytes: &mut [u8]) -> usize
    ensures { (result ≡ min (length token.now / 2) (length bytes.old))
        × (bytes.new ≡ copied (pairs_of token.now) bytes.old) }
{
    let n = bytes.len().min(token.len() / 2);
    for (i, byte) in bytes[..n].iter_mut().enumerate() {
        *byte = pair(token[2 * i], token[2 * i + 1]);
    }
    n
}
