// The query program: one query from standard input, answered on standard output.
// It reads and writes; what it writes is `printed::print::print` of what it read.
#![tactic(auto)]

ghost use Rattle.std.specs.Prelude.{◌≡◌, ◌≤◌, length, take, IfOk};

use printed::print::print;
use printed::split::INPUT_MOST;
use std::io;
use std::io::Read;

// One byte more than an input may have, so that a longer one is seen.
const READ_MOST: usize = INPUT_MOST + 1;

// Reads until the buffer is full or the input ends, and answers how many bytes came: read_exact fails at the end, read_to_end takes a heap.
fn read_input<R: Read>(from: &mut R, buffer: &mut [u8]) -> io::Result<usize>
    ensures within { IfOk result (λ count. count ≤ length buffer.new) }
    ensures taken { IfOk result (λ count. count ≡ length (take count buffer.new)) }
{
    let mut done = 0;
    while done < buffer.len() {
        match from.read(&mut buffer[done..])? {
            0 => break,
            count => done += count,
        }
    }
    Ok(done)
}

// A line on the other stream; where that cannot be written either, nothing is left to say so.
fn complain<E: Eprint>(rt: &E, line: &str) {
    let _ = rt.eprintln(line);
}

fn main(rt: HostRuntime) {
    let mut input = [0; READ_MOST];
    // An input that cannot be read to its end counts as none, since a part of it may ask another query.
    let count = match read_input(&mut rt.stdin(), &mut input) {
        Ok(count) => count,
        Err(_) => {
            complain(&rt, "query: standard input cannot be read");
            0
        }
    };
    let text = print(&input[..count]);
    if rt.write_all(text.as_slice()).is_err() {
        complain(&rt, "query: standard output cannot be written");
    }
}
