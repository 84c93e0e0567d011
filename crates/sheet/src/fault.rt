// Why a line is no request.
use std::fmt;

#[derive(Clone, Copy, Debug, PartialEq, Eq)]
pub(crate) enum Fault {
    LineTooLong,
    UnknownRequest,
    TokenCount,
    BadNumber,
    TooManySamples,
    UnknownWindow,
}

// The protocol's words.
impl fmt::Display for Fault {
    fn fmt<W: fmt::Write>(&self, f: &mut fmt::Formatter<W>) -> fmt::Result {
        f.write_str(match self {
            Fault::LineTooLong => "line too long",
            Fault::UnknownRequest => "unknown request",
            Fault::TokenCount => "wrong number of tokens",
            Fault::BadNumber => "bad number",
            Fault::TooManySamples => "too many samples",
            Fault::UnknownWindow => "unknown window",
        })
    }
}
