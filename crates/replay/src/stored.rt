// Comparing an answer with the stored one, word by word.
ghost use Rattle.std.specs.Iterator.{IsFinite};

use runs::{Answer, Refusal, count_in, number_in};

// A stored answer.
#[derive(Clone, Copy)]
pub(crate) struct Stored<'a>(pub &'a [u64]);

impl Stored<'_> {
    // Whether it is these words and behind them these numbers. There is one NaN: `to_bits` gives it the pattern that the list has.
    pub(crate) fn agrees<I: Iterator<Item = f64> + Drop>(self, words: &[u64], numbers: I) -> bool
        requires can { I.can_next numbers }
        requires ends { IsFinite (I.remaining numbers) }
    {
        let Some(rest) = self.0.strip_prefix(words) else {
            return false;
        };
        rest.iter().copied().eq(numbers.map(|x| ieee::to_bits(x)))
    }

    // Whether its first word is 0 or the refusal number.
    pub(crate) fn begins_with(self, outcome: Result<(), Refusal>) -> bool {
        self.0.first() == Some(&u64::from(number_in(outcome)))
    }

    // Of a sample: 0 for Clear or 1 for Clouded and the number, or 2 and the refusal number.
    pub(crate) fn agrees_with_sample(self, answer: Answer) -> bool {
        match answer {
            Answer::Clear(y) => self.agrees(&[0], [y].into_iter()),
            Answer::Clouded(y) => self.agrees(&[1], [y].into_iter()),
            Answer::Refused(refusal) => self.agrees(
                &[2, u64::from(u8::from(refusal))],
                [].into_iter(),
            ),
        }
    }

    // Of a reset or a pulse: 0 or the refusal number, and the buffer's places, of which a reset has none.
    pub(crate) fn agrees_with_places(self, outcome: Result<(), Refusal>, places: &[f64]) -> bool {
        self.agrees(&[u64::from(number_in(outcome))], places.iter().copied())
    }

    // Of a block or a channel: 0 or the refusal number, the count, which is 0 where refused, and the output's places.
    pub(crate) fn agrees_with_output(
        self,
        outcome: Result<usize, Refusal>,
        output: &[f64],
    ) -> bool {
        let refusal = u64::from(number_in(outcome));
        let count = count_in(outcome) as u64;
        self.agrees(&[refusal, count], output.iter().copied())
    }
}
