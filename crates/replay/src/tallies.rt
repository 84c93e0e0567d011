// How many requests of each kind there were, and how many of them agreed.
use crate::kinds::Kind;
use std::io;

// No list is so long that a count wraps.
#[derive(Clone, Copy, Debug, Default)]
struct Tally {
    requests: u64,
    agreed: u64,
}

impl Tally {
    fn and(self, other: Tally) -> Tally {
        Tally {
            requests: self.requests.wrapping_add(other.requests),
            agreed: self.agreed.wrapping_add(other.agreed),
        }
    }
}

// A tally for each kind.
#[derive(Clone, Copy, Debug)]
pub(crate) struct Tallies([Tally; Kind::ALL.len()]);

impl Tallies {
    pub(crate) fn new() -> Tallies {
        Tallies([Tally::default(); Kind::ALL.len()])
    }

    // One more request of the kind.
    pub(crate) fn count(&mut self, kind: Kind, agreed: bool) {
        let tally = &mut self.0[kind as usize];
        *tally = tally.and(Tally {
            requests: 1,
            agreed: u64::from(agreed),
        });
    }

    fn total(&self) -> Tally {
        self.0
            .iter()
            .fold(Tally::default(), |sum, tally| sum.and(*tally))
    }

    // Prints a line of all, and one of each kind.
    pub(crate) fn report(&self, rt: &impl Print) -> io::Result<()> {
        let Tally { requests, agreed } = self.total();
        println!(rt; "{requests} requests, {agreed} agree with the oracle")?;
        for (kind, tally) in Kind::ALL.iter().zip(&self.0) {
            let Tally { requests, agreed } = *tally;
            println!(rt; "{kind:<10} {requests}, {agreed} agree")?;
        }
        Ok(())
    }
}
