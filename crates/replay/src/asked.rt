// Reading what a request asks, word by word.
use design_request::Form;

// The most numbers that a request has: an output's places, a block's or a pulse's samples, or ready-made taps.
pub(crate) const MOST: usize = 256;

// The words that are left of what is asked. Behind the last one each is 0.
#[derive(Clone, Copy)]
pub(crate) struct Asked<'a>(pub &'a [u64]);

impl Asked<'_> {
    fn next(&mut self) -> Option<u64> {
        let (word, rest) = self.0.split_first()?;
        self.0 = rest;
        Some(*word)
    }

    pub(crate) fn word(&mut self) -> u64 {
        self.next().unwrap_or(0)
    }

    pub(crate) fn size(&mut self) -> usize {
        self.word() as usize
    }

    pub(crate) fn number(&mut self) -> f64 {
        ieee::from_bits(self.word())
    }

    // 02's Q-3: the form of a design or of ready-made taps, 0 for the default one and 1 for the raw one.
    pub(crate) fn form(&mut self) -> Option<Form> {
        match self.next()? {
            0 => Some(Form::Default),
            1 => Some(Form::Raw),
            _ => None,
        }
    }

    // The words that are left as numbers, and +0 behind them.
    pub(crate) fn numbers(self) -> [f64; MOST] {
        let mut numbers = [0.0; MOST];
        for (number, word) in numbers.iter_mut().zip(self.0) {
            *number = ieee::from_bits(*word);
        }
        numbers
    }
}
