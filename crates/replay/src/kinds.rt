// The kinds of request.
use exports::Function;
use std::fmt;

#[derive(Clone, Copy, Debug, PartialEq, Eq)]
pub(crate) enum Kind {
    // The cascade's: its designs, steps, blocks and resets.
    LowPass,
    HighPass,
    BandPass,
    Chebyshev1,
    Chebyshev2,
    CascadeStep,
    CascadeBlock,
    CascadeReset,
    // The tap record's: its design, ready-made taps, steps, blocks and resets.
    Fir,
    Taps,
    FirStep,
    FirBlock,
    FirReset,
    // A whole pulse through a channel class.
    J211,
    // A channel of the rival's block.
    Rival,
    // An elementary function at a number.
    Sqrt,
    Sin,
    Cos,
    Tan,
    Exp,
    Ln,
    Sinh,
    Cosh,
    Pow10,
}

impl Kind {
    // The kinds by number, from 0 on.
    pub const ALL: [Kind; 24] = [
        Kind::LowPass,
        Kind::HighPass,
        Kind::BandPass,
        Kind::Chebyshev1,
        Kind::Chebyshev2,
        Kind::CascadeStep,
        Kind::CascadeBlock,
        Kind::CascadeReset,
        Kind::Fir,
        Kind::Taps,
        Kind::FirStep,
        Kind::FirBlock,
        Kind::FirReset,
        Kind::J211,
        Kind::Rival,
        Kind::Sqrt,
        Kind::Sin,
        Kind::Cos,
        Kind::Tan,
        Kind::Exp,
        Kind::Ln,
        Kind::Sinh,
        Kind::Cosh,
        Kind::Pow10,
    ];
}

// A number that no kind has.
#[derive(Clone, Copy, Debug, PartialEq, Eq)]
pub(crate) struct UnknownKind(u64);

impl TryFrom<u64> for Kind {
    type Error = UnknownKind;

    fn try_from(number: u64) -> Result<Kind, UnknownKind> {
        Kind::ALL
            .get(number as usize)
            .copied()
            .ok_or(UnknownKind(number))
    }
}

impl fmt::Display for Kind {
    fn fmt<W: fmt::Write>(&self, f: &mut fmt::Formatter<W>) -> fmt::Result {
        f.pad(match self {
            Kind::LowPass => "lowpass",
            Kind::HighPass => "highpass",
            Kind::BandPass => "bandpass",
            Kind::Chebyshev1 => "chebyshev1",
            Kind::Chebyshev2 => "chebyshev2",
            Kind::CascadeStep => "cstep",
            Kind::CascadeBlock => "cblock",
            Kind::CascadeReset => "creset",
            Kind::Fir => "fir",
            Kind::Taps => "taps",
            Kind::FirStep => "fstep",
            Kind::FirBlock => "fblock",
            Kind::FirReset => "freset",
            Kind::J211 => "j211",
            Kind::Rival => "rival",
            Kind::Sqrt => "sqrt",
            Kind::Sin => "sin",
            Kind::Cos => "cos",
            Kind::Tan => "tan",
            Kind::Exp => "exp",
            Kind::Ln => "ln",
            Kind::Sinh => "sinh",
            Kind::Cosh => "cosh",
            Kind::Pow10 => "pow10",
        })
    }
}
