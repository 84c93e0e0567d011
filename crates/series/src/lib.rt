// The series of sin, cos, exp, ln and sinh, each summed by Horner, and their coefficients: 1/k! and 1/k, one division each.
#![tactic(auto)]

ghost use Rattle.std.specs.Prelude.{◌≡◌, ℕ, ◌<◌, ◌≤◌, Float};
ghost use Rattle.series.specs.Series.{inv_fact, inv, horner_from, alternating_of, sin_rest, cos_rest, exp_series, ln_series, sinh_series};

// 01's table: 0! to 17!, whole numbers that an f64 holds exactly.
const FACTORIALS: [u64; 18] = [
    1,
    1,
    2,
    6,
    24,
    120,
    720,
    5040,
    40320,
    362880,
    3628800,
    39916800,
    479001600,
    6227020800,
    87178291200,
    1307674368000,
    20922789888000,
    355687428096000,
];

// 1/k!
fn inverse_factorial(k: u32) -> f64
    requires { k < 18 }
    ensures { result ≡ inv_fact k }
{
    1.0 / (FACTORIALS[k as usize] as f64)
}

// 1/k
#[tactic(auto, unfolding(crate::specs::Series::inv))]
fn inverse(k: u32) -> f64
    ensures { result ≡ inv k }
{
    1.0 / f64::from(k)
}

// coefficient(0) + s * (coefficient(1) + .. + s * coefficient(n)), by Horner, highest coefficient first.
fn horner<F: Fn(u32) -> f64>(coefficient: F, n: u32, s: f64) -> f64
    requires { (i : ℕ) → i ≤ n → F.pre coefficient i }
    ensures { (c : ℕ → Float) → ((i : ℕ) (y : Float) → i ≤ n → F.post coefficient i y → y ≡ c i) → result ≡ horner_from c s n 0 }
{
    let mut p = coefficient(n);
    for i in (0..n).rev() {
        p = coefficient(i) + s * p;
    }
    p
}

// -1/k!, +1/(k + 2)!, alternating to +1/(k + 14)!, by Horner in s. 01's P is this for k = 3, and Q for k = 2.
fn alternating(k: u32, s: f64) -> f64
    requires { k ≤ 3 }
    ensures { result ≡ alternating_of k s }
{
    let coefficient = |i: u32| {
        let c = inverse_factorial(k + 2 * i);
        if i % 2 == 0 { -c } else { c }
    };
    horner(coefficient, 7, s)
}

// 01's S, of sin.
#[tactic(auto, unfolding(crate::specs::Series::sin_rest))]
pub fn sin_rest(r: f64) -> f64
    ensures { result ≡ sin_rest r }
{
    let s = r * r;
    r + (r * s) * alternating(3, s)
}

// 01's C, of cos.
#[tactic(auto, unfolding(crate::specs::Series::cos_rest))]
pub fn cos_rest(r: f64) -> f64
    ensures { result ≡ cos_rest r }
{
    let s = r * r;
    1.0 + s * alternating(2, s)
}

// The series of exp in r: 1/j! for j = 0 to 13.
pub fn exp_series(r: f64) -> f64
    ensures { result ≡ exp_series r }
{
    horner(inverse_factorial, 13, r)
}

// P of ln in s: 1/1, 1/3, to 1/21.
pub fn ln_series(s: f64) -> f64
    ensures { result ≡ ln_series s }
{
    horner(|i| inverse(2 * i + 1), 10, s)
}

// P of sinh in s, by 02's Q-4: 1/3!, 1/5!, to 1/17!. Its signs do not alternate.
pub fn sinh_series(s: f64) -> f64
    ensures { result ≡ sinh_series s }
{
    horner(|i| inverse_factorial(2 * i + 3), 7, s)
}
