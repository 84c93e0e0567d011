// 01's refusals and those of 02, each with its number.
ghost use Rattle.std.specs.Prelude.{◌≡◌, cond};
ghost use Rattle.runs.specs.Refusals.{no_refusal};
ghost use Rattle.runs.specs.View.{number, refusal_in};

// Why a call is refused. The numbers are 01's and 02's; the first four have 003's names.
#[derive(Clone, Copy, Debug, PartialEq, Eq)]
pub enum Refusal {
    // From the input.
    InvalidOrder = 1,
    InvalidFrequency = 2,
    InvalidSampleRate = 3,
    InvalidRipple = 4,
    ShortOutput = 5,
    // From the state.
    BadCascade = 11,
    BadTaps = 12,
    // From a call on lent slices: a slice of another length than asked for, a flag that is neither 0 nor 1, or a code that
    // no design has.
    BadCall = 13,
    // From 02's Q-1: not a channel class.
    InvalidClass = 21,
    // From 02's Q-2, of a rival's block: its header, samples that run past its end, and a channel that is not present.
    InvalidHeader = 22,
    TruncatedBlock = 23,
    ChannelNotPresent = 24,
    // From 02's Q-3: a coefficient that is not finite.
    NonFiniteCoefficient = 25,
}

// The number of a refusal.
impl From<Refusal> for u8 {
    ghost from_gives = { λ refusal n. n ≡ number refusal };

    fn from(refusal: Refusal) -> u8 {
        refusal as u8
    }
}

// One test of a check, which goes on where it does not hold.
pub fn refuse_if(test: bool, refusal: Refusal) -> Result<(), Refusal>
    ensures { refusal_in result ≡ cond test (number refusal) no_refusal }
{
    if test { Err(refusal) } else { Ok(()) }
}

// 0, or the number of the refusal: what a C function returns.
pub fn number_in<T: Drop>(outcome: Result<T, Refusal>) -> u8
    ensures { result ≡ refusal_in outcome }
{
    match outcome {
        Ok(_) => 0,
        Err(refusal) => u8::from(refusal),
    }
}
