// The program `sheet`: reads request lines on standard input to its end and writes one answer line for each to standard
// output.
#![tactic(auto)]

mod answer;
mod designs;
mod fault;
mod functions;
mod line;
mod parameters;
mod pulses;
mod put;
mod rival;
mod running;
mod session;

use session::Session;
use std::io::Read;
use text_answers::Output;

// How many bytes are read at once, and how many bytes of answers there is room for. The room is a local array: with one from
// the heap the program could run out of memory.
const BUFFER: usize = 65536;

// A proved loop has to end, and nothing says that the input does. So it counts its turns, up to a number that no run
// reaches.
fn main(rt: HostRuntime) {
    let mut input = rt.stdin();
    let mut chunk = [0u8; BUFFER];
    let mut room = [0u8; BUFFER];
    let mut session = Session::new(Output::new(&mut room));
    for _ in 0..u64::MAX {
        match input.read(&mut chunk) {
            Ok(0) => break,
            Ok(n) => session.answer_chunk(&rt, &chunk[..n]),
            Err(_) => {
                let _ = eprintln!(rt; "sheet: standard input cannot be read");
                break;
            }
        }
        if session.is_stopped() {
            return;
        }
    }
    session.finish(&rt);
}
