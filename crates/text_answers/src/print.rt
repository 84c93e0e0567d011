// The bytes of an answer, put into a lent output, one text after the other.
ghost use Rattle.std.specs.Prelude.{◌≡◌, ◌≤◌, ◌<◌, length, take, MatchOption};
ghost use Rattle.text_answers.specs.Texts.{put, place_after, glyph, digits_of, float_text, CountPut};

// The most digits that a number has: 2^64 is below 10^20.
const MOST_DIGITS: usize = 20;

// An output, and the place of the next text. The place lies past the output's end once a text did not fit; such a text leaves
// the output as it was.
#[derive(Drop)]
pub struct Output<'a> {
    pub bytes: &'a mut [u8],
    pub at: usize,
}

// The byte of a digit.
#[tactic(auto, unfolding(crate::specs::Texts::glyph))]
fn glyph(d: u64) -> u8
    requires { d < 16 }
    ensures { result ≡ glyph d }
{
    b"0123456789ABCDEF"[d as usize]
}

// The last N digits of n in a base, from the last one on. The places are counted: what is written through `iter_mut().rev()` is not
// known behind the loop, and digits that are written in the other order and then reversed take longer (docs/SPEED.md).
fn digits<const N: usize>(base: u64, mut n: u64) -> [u8; N]
    requires { (0 < base) × (base ≤ 16) }
    ensures { result ≡ digits_of base N n }
{
    let mut text = [0; N];
    for i in (0..N).rev() {
        text[i] = glyph(n % base);
        n /= base;
    }
    text
}

impl<'a> Output<'a> {
    pub fn new(bytes: &'a mut [u8]) -> Output<'a>
        ensures same_reference { result.bytes.ghost_name ≡ bytes.entry.ghost_name }
        ensures bytes { result.bytes.now ≡ bytes.old }
        ensures place { result.at ≡ 0 }
    {
        Output { bytes, at: 0 }
    }

    // What was put, or that a text did not fit.
    pub fn written(&self) -> Option<&[u8]>
        ensures { MatchOption result (length self.now.bytes.now < self.now.at) (λ text. text.now ≡ take self.now.at self.now.bytes.now) }
    {
        self.bytes.get(..self.at)
    }

    // Puts a text where it fits.
    #[tactic(auto, unfolding(crate::specs::Texts::put, crate::specs::Texts::place_after))]
    pub fn put_bytes(&mut self, text: &[u8])
        ensures same_reference { self.new.bytes.ghost_name ≡ self.old.bytes.ghost_name }
        ensures bytes { self.new.bytes.now ≡ put self.old.bytes.now self.old.at text.now }
        ensures place { self.new.at ≡ place_after self.old.bytes.now self.old.at (length text.now) }
    {
        if !lists::within(self.at, text.len(), self.bytes.len()) {
            self.at = self.bytes.len() + 1;
            return;
        }
        let end = self.at + text.len();
        self.bytes[self.at..end].copy_from_slice(text);
        self.at = end;
    }

    // The 16 hexadecimal digits of x, or `NaN`.
    #[tactic(auto, unfolding(crate::specs::Texts::float_text))]
    pub fn put_float(&mut self, x: f64)
        ensures same_reference { self.new.bytes.ghost_name ≡ self.old.bytes.ghost_name }
        ensures bytes { self.new.bytes.now ≡ put self.old.bytes.now self.old.at (float_text x) }
        ensures place { self.new.at ≡ place_after self.old.bytes.now self.old.at (length (float_text x)) }
    {
        if x.is_nan() {
            self.put_bytes(b"NaN");
        } else {
            self.put_bytes(&digits::<16>(16, ieee::to_bits(x)));
        }
    }

    // The decimal digits of n, with no zero in front.
    pub fn put_count(&mut self, n: u64)
        ensures same_reference { self.new.bytes.ghost_name ≡ self.old.bytes.ghost_name }
        ensures count { CountPut self.old.bytes.now self.old.at n self.new.bytes.now self.new.at }
    {
        let text = digits::<MOST_DIGITS>(10, n);
        let zeros = text
            .iter()
            .position(|d| *d != b'0')
            .unwrap_or(MOST_DIGITS - 1);
        self.put_bytes(&text[zeros..]);
    }
}
