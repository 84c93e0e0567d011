// Replays the oracle's stored answers, the file `answers`: each request is asked of the port, and its answer compared with
// the stored one, word by word. Prints how many requests of each kind there were and how many agreed. tools/replay.py
// makes the file.
#![tactic(auto)]

mod asked;
mod designs;
mod filters;
mod kinds;
mod list;
mod pulses;
mod records;
mod rival;
mod stored;
mod tallies;

use filters::Filters;
use std::io::{BufReader, Read};
use std::{fs, io};
use tallies::Tallies;

// Replays the list, and tallies the requests of each kind and those that agreed. None where the list is not whole: it has so many
// requests as it says, and no more.
fn replay(list: &mut impl Read) -> Option<Tallies> {
    let mut filters = Filters::blank();
    let mut tallies = Tallies::new();
    for _ in 0..list::read_word(list)? {
        let mut asked = [0; list::MOST];
        let mut stored = [0; list::MOST];
        let request = list::read_request(list, &mut asked, &mut stored)?;
        tallies.count(request.kind, filters.agrees(request));
    }
    match list::read_word(list) {
        Some(_) => None,
        None => Some(tallies),
    }
}

// Says on standard error why a file does not open: what the system says, without the number that stands behind it. `vectors` has the
// same: a crate for the few lines that the two programs share would be no plainer.
fn fail(rt: &(impl Eprint + AllocGlobal), path: &str, error: io::Error) -> io::Result<()> {
    let text = format!(in rt.alloc(); "{error}")?;
    let words = text
        .split_once(" (os error ")
        .map_or(text.as_str(), |(words, _)| words);
    eprintln!(rt; "{path}: {words}")
}

fn main(rt: HostRuntime) -> io::Result<()> {
    let path = "answers";
    let file = match fs::open(&rt, path) {
        Ok(file) => file,
        Err(error) => return fail(&rt, path, error),
    };
    let mut list = BufReader::new(rt.alloc(), file)?;
    match replay(&mut list) {
        Some(tallies) => tallies.report(&rt),
        None => println!(rt; "the list is not whole"),
    }
}
