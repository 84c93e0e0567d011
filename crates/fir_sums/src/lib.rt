// Many outputs of a FIR at once. Each output is its own sum, from tap 0 up; sixteen sums go side by side, and no sum is
// regrouped. They are no part of what is promised. Taps, samples and output are slices of three owners, so they stand in no struct.
#![tactic(auto)]

ghost use Rattle.std.specs.Prelude.{◌≡◌, ◌+◌, ◌-◌, ◌≤◌, ◌++◌, length, drop};
ghost use Rattle.std.specs.Float.{binary64};
ghost use Rattle.fir_theory.specs.Convolution.{sum_at, sums_from, scaled, convolvable, convolved};

// How many sums go side by side.
const WIDTH: usize = 16;

// t × sample j is added to sum j.
fn add_scaled(sums: &mut [f64], t: f64, x: &[f64])
    requires { length sums.old ≤ length x.now }
    ensures { sums.new ≡ scaled binary64 sums.old t x.now 0 }
{
    for (j, sum) in sums.iter_mut().enumerate() {
        *sum += t * x[j];
    }
}

// The outputs at the first places behind as many samples as there are taps.
fn side_by_side(taps: &[f64], x: &[f64]) -> [f64; WIDTH]
    requires { length taps.now + WIDTH ≤ length x.now }
    ensures { result ≡ sums_from binary64 taps.now (length taps.now) x.now (length taps.now) WIDTH }
{
    let mut sums = [0.0; WIDTH];
    for (i, t) in taps.iter().enumerate() {
        add_scaled(&mut sums, *t, &x[taps.len() - i..]);
    }
    sums
}

// The output at the place of the last sample. Alone a sum is faster as a fold than as `side_by_side` with a width of one
// (docs/SPEED.md).
fn one(taps: &[f64], x: &[f64]) -> f64
    requires { length x.now ≡ length taps.now }
    ensures { result ≡ sum_at binary64 taps.now (length taps.now) x.now (length taps.now - 1) }
{
    taps.iter()
        .zip(x.iter().rev())
        .fold(0.0, |sum, (t, y)| sum + *t * *y)
}

// Sixteen outputs at a time, as long as there are sixteen: how many are done. The groups are counted: what is written through
// `chunks_exact_mut` is not known behind the loop. Inline: `convolve` alone calls it, and a call takes stack.
#[inline(always)]
fn wide(taps: &[f64], x: &[f64], output: &mut [f64]) -> usize
    requires { length taps.now + length output.old ≤ length x.now }
    ensures within { result ≤ length output.old }
    ensures sums { output.new
        ≡ sums_from binary64 taps.now (length taps.now) x.now (length taps.now) result ++ drop result output.old }
{
    let groups = output.len() / WIDTH;
    for k in 0..groups {
        let at = WIDTH * k;
        output[at..at + WIDTH].copy_from_slice(&side_by_side(taps, &x[at..]));
    }
    WIDTH * groups
}

// The outputs one by one.
fn narrow(taps: &[f64], x: &[f64], output: &mut [f64])
    requires { length taps.now + length output.old ≤ length x.now }
    ensures { output.new ≡ sums_from binary64 taps.now (length taps.now) x.now (length taps.now) (length output.old) }
{
    for (j, y) in output.iter_mut().enumerate() {
        *y = one(taps, &x[j + 1..j + 1 + taps.len()]);
    }
}

// The outputs at the places of x behind as many samples as there are taps, and true; or false and the output as it was, where
// a place is missing. The answer is a bool: no value and no number comes with it.
pub fn convolve(taps: &[f64], x: &[f64], output: &mut [f64]) -> bool
    ensures done { result ≡ convolvable (length taps.now) taps.now x.now (length taps.now) output.old 0 (length output.old) }
    ensures output { output.new
        ≡ convolved binary64 (length taps.now) taps.now x.now (length taps.now) output.old 0 (length output.old) }
{
    if !lists::within(taps.len(), output.len(), x.len()) {
        return false;
    }
    let done = wide(taps, x, output);
    narrow(taps, &x[done..], &mut output[done..]);
    true
}
