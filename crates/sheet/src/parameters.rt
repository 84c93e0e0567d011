// The parameters of a request.
ghost use Rattle.std.specs.Prelude.{◌≤◌, IfOk};

use super::fault::Fault;
use super::line::LONGEST;
use design_fir::WindowType;
use text_answers::{Tokens, count_token, float_token, is_pairs, put_pairs};

// The most samples that a filter or a channel class takes in a line, places of an output, and ready-made taps.
pub(crate) const MOST: usize = 256;

// The most bytes that a line writes, two digits each.
pub(crate) const MOST_BYTES: usize = LONGEST / 2;

// The tokens after a request's word that are not read yet. One that is missing is a wrong number of tokens.
#[derive(Clone, Copy)]
pub(crate) struct Parameters<'a>(Tokens<'a>);

impl<'a> Parameters<'a> {
    pub(crate) fn new(rest: &'a [u8]) -> Self {
        Parameters(Tokens::new(rest))
    }

    // How many there are.
    pub(crate) fn number(self) -> usize {
        self.0.count()
    }

    // That there are n.
    pub(crate) fn exactly(self, n: usize) -> Result<(), Fault> {
        if self.number() != n {
            return Err(Fault::TokenCount);
        }
        Ok(())
    }

    fn token(&mut self) -> Result<&'a [u8], Fault> {
        self.0.next().ok_or(Fault::TokenCount)
    }

    // The word of the request behind `raw`.
    pub(crate) fn word(&mut self) -> Result<&'a [u8], Fault> {
        self.0.next().ok_or(Fault::UnknownRequest)
    }

    pub(crate) fn count(&mut self) -> Result<usize, Fault> {
        let count = count_token(self.token()?).ok_or(Fault::BadNumber)?;
        Ok(count as usize)
    }

    pub(crate) fn float(&mut self) -> Result<f64, Fault> {
        float_token(self.token()?).ok_or(Fault::BadNumber)
    }

    // As many floats as there are places.
    pub(crate) fn floats(&mut self, places: &mut [f64]) -> Result<(), Fault> {
        for place in places {
            *place = self.float()?;
        }
        Ok(())
    }

    // An order and N floats, which are all that there is.
    pub(crate) fn order_and<const N: usize>(mut self) -> Result<(usize, [f64; N]), Fault> {
        self.exactly(N + 1)?;
        let order = self.count()?;
        let mut floats = [0.0; N];
        self.floats(&mut floats)?;
        Ok((order, floats))
    }

    pub(crate) fn only_float(mut self) -> Result<f64, Fault> {
        self.exactly(1)?;
        self.float()
    }

    pub(crate) fn window(&mut self) -> Result<WindowType, Fault> {
        match self.token()? {
            b"rectangular" => Ok(WindowType::Rectangular),
            b"hamming" => Ok(WindowType::Hamming),
            b"hanning" => Ok(WindowType::Hanning),
            b"blackman" => Ok(WindowType::Blackman),
            _ => Err(Fault::UnknownWindow),
        }
    }

    // How many samples there are, or places of an output.
    pub(crate) fn length(&mut self) -> Result<usize, Fault>
        ensures { IfOk result (λ n. n ≤ MOST) }
    {
        let n = self.count()?;
        if n > MOST {
            return Err(Fault::TooManySamples);
        }
        Ok(n)
    }

    // Pairs of hexadecimal digits, or `-` for none.
    pub(crate) fn bytes<'b>(&mut self, room: &'b mut [u8; MOST_BYTES]) -> Result<&'b [u8], Fault> {
        let token = self.token()?;
        if token == b"-".as_slice() {
            return Ok(&[]);
        }
        if !is_pairs(token) || token.len() / 2 > room.len() {
            return Err(Fault::BadNumber);
        }
        let n = put_pairs(token, room);
        Ok(&room[..n])
    }
}
