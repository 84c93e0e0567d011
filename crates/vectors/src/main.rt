// Runs the vectors of the elementary functions, the file `vectors`: prints each input and answer as bit patterns, compares
// the answer with the stored one, and ends with how many agree, or with where the list is wrong. tools/vectors.py makes the
// file and the expected output.
#![tactic(auto)]

ghost use Rattle.std.specs.Prelude.{◌≡◌, ◌↔◌, IfOk, IsTrue};
ghost use Rattle.std.specs.Float.{binary64};
ghost use Rattle.std.specs.Float.Ieee.{of_bits, to_bits};
ghost use Rattle.exports.specs.Numbered.{number, numbered};

mod list;

use list::Vector;
use std::io::{BufReader, Read};
use std::{fs, io};

// One line of output; answers whether the function gives the stored answer.
fn try_vector(rt: &impl Print, v: Vector) -> io::Result<bool>
    ensures stored { IfOk result (λ agrees. IsTrue agrees ↔ to_bits binary64 (numbered (number v.function) (of_bits binary64 v.input)) ≡ v.answer) }
{
    let y = ieee::to_bits(exports::value(v.function, ieee::from_bits(v.input)));
    let agrees = y == v.answer;
    let ending = if agrees { "" } else { " differs" };
    println!(rt; "{} {:016x} {y:016x}{ending}", v.function, v.input)?;
    Ok(agrees)
}

// How many vectors were run, and how many of them agree.
#[derive(Clone, Copy)]
struct Tried {
    run: u64,
    agree: u64,
}

// Runs the vectors up to the count, or to the first line that is none.
fn try_vectors(rt: &impl Print, list: &mut impl Read, count: u64) -> io::Result<Tried> {
    let mut agree = 0;
    for run in 0..count {
        let Some(v) = list::read_vector(list) else {
            return Ok(Tried { run, agree });
        };
        agree += u64::from(try_vector(rt, v)?);
    }
    Ok(Tried { run: count, agree })
}

// Runs a list of so many vectors. It is wrong where a line is no vector, and where it goes on after the last.
fn try_list(rt: &impl Print, list: &mut impl Read, count: u64) -> io::Result<()> {
    let Tried { run, agree } = try_vectors(rt, list, count)?;
    if run < count || list.read_exact(&mut [0]).is_ok() {
        return println!(rt; "{run} vectors, and the next line is wrong: {count} vectors are due");
    }
    println!(rt; "{count} vectors, {agree} agree")
}

// Says on standard error why a file does not open: what the system says, without the number that stands behind it. `replay` has the
// same: a crate for the few lines that the two programs share would be no plainer.
fn fail(rt: &(impl Eprint + AllocGlobal), path: &str, error: io::Error) -> io::Result<()> {
    let text = format!(in rt.alloc(); "{error}")?;
    let words = text
        .split_once(" (os error ")
        .map_or(text.as_str(), |(words, _)| words);
    eprintln!(rt; "{path}: {words}")
}

fn main(rt: HostRuntime) -> io::Result<()> {
    let path = "vectors";
    let file = match fs::open(&rt, path) {
        Ok(file) => file,
        Err(error) => return fail(&rt, path, error),
    };
    let mut list = BufReader::new(rt.alloc(), file)?;
    match list::read_bits(&mut list, b'\n') {
        Some(count) => try_list(&rt, &mut list, count),
        None => println!(rt; "the first line is not the number of vectors"),
    }
}
