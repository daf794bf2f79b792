// Runs the edges of reading that document 01 states, one to a line of standard input: what is read, a label, and bytes in hex.
// It writes `LABEL NUMBER PLACE` for a refusal and `LABEL ok COUNT` for an answer; the file stdout is worked out from document 01 by hand.
#![tactic(auto)]

ghost use Rattle.std.specs.Prelude.{◌≤◌, length};

use std::io;
use std::io::Read;

mod cases; // cases.rt: a case, taken from its line
mod show; // show.rt: a case, run and written

// The most bytes of input that are read.
const INPUT: usize = 65536;

// Reads until the buffer is full, the input ends or a read fails, and answers how many bytes came: read_to_end would need a heap.
fn read_full<R: Read>(from: &mut R, buffer: &mut [u8]) -> usize
    ensures { result ≤ length buffer.new }
{
    let mut done = 0;
    while done < buffer.len() {
        match from.read(&mut buffer[done..]) {
            Ok(0) | Err(_) => return done,
            Ok(count) => done += count,
        }
    }
    done
}

fn main(rt: HostRuntime) -> io::Result<()> {
    let mut input = [0; INPUT];
    let count = read_full(&mut rt.stdin(), &mut input);
    cases::run(&rt, &input[..count])
}
