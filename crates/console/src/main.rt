// A console that keeps a book: a line of commands in, an answer line out.
#![tactic(auto)]

mod answer;
mod order;
mod resolve;
mod session;

use session::Session;
use std::io;
use std::io::{BufRead, BufReader, Write};

// One buffer holds each line in turn, and one its answer: `split` makes a buffer for every line and takes twice the
// time, and a `LineWriter` parts a long answer and writes again what a write has failed on.
fn main(rt: HostRuntime) -> io::Result<()> {
    let heap = rt.alloc();
    let mut input = BufReader::new(heap, rt.stdin())?;
    let mut output = rt.stdout();
    let mut session = Session::new(heap);
    let mut line = Vec::new(heap);
    let mut answer = Vec::new(heap);
    for _ in 0..u64::MAX {
        line.clear();
        if input.read_until(b'\n', &mut line)? == 0 {
            break;
        }
        if line.last() == Some(&b'\n') {
            line.pop();
        }
        session.answer(&line, &mut answer)?;
        if !answer.is_empty() {
            output.write_all(&answer)?;
            answer.clear();
        }
    }
    Ok(())
}
