// A case is taken from its line, `KIND LABEL XX XX ..`, where each XX is a byte. The kinds are
// s: a site of these bytes; S: the same after a full site; r: a rule; 0 and 1: a query's start and end, a number of four bytes.
ghost use Rattle.std.specs.Prelude.{◌≤◌, ◌<◌, length};

use crate::show;
use records::TRIPLES;
use records::site::{TRIPLE_KIND, TRIPLE_WIDTH};
use std::io;

// How many bytes a full site has.
const FULL: usize = TRIPLES * TRIPLE_WIDTH;

// Room for a full site, and behind it for the most bytes that a line has.
const ROOM: usize = FULL + 128;

// Runs the cases of the input. The room has a full site in front, so that a case's bytes follow it.
pub fn run<P: Print>(rt: &P, input: &[u8]) -> io::Result<()> {
    let mut room = [0; ROOM];
    fill(&mut room[..FULL]);
    for text in input.split(|letter| *letter == b'\n') {
        line(rt, text, &mut room)?;
    }
    Ok(())
}

// Fills the room with triples, the ascending (k / 256, k % 256, 0).
fn fill(room: &mut [u8]) {
    for (k, triple) in room.chunks_exact_mut(TRIPLE_WIDTH).enumerate() {
        let [.., subject, predicate] = k.to_be_bytes();
        triple.copy_from_slice(&[TRIPLE_KIND, 0, subject, 0, predicate, 0, 0]);
    }
}

// A line's bytes go into the room behind the full site.
fn line<P: Print>(rt: &P, text: &[u8], room: &mut [u8; ROOM]) -> io::Result<()> {
    let [kind, _, rest @ ..] = text else {
        return Ok(());
    };
    let gap = rest
        .iter()
        .position(|letter| *letter == b' ')
        .unwrap_or(rest.len());
    let (label, digits) = rest.split_at(gap);
    let count = decode(digits, &mut room[FULL..]);
    let after_full = &room[..FULL + count];
    let bytes = &after_full[FULL..];
    match kind {
        b's' => show::site(rt, label, bytes),
        b'S' => show::site(rt, label, after_full),
        b'r' => show::rule(rt, label, bytes),
        b'0' => show::query(rt, label, number(bytes), 0),
        b'1' => show::query(rt, label, number(bytes), 1),
        _ => Ok(()),
    }
}

// Decodes bytes, each a space and two digits, into the room, and answers how many there are.
fn decode(text: &[u8], room: &mut [u8]) -> usize
    ensures { result ≤ length room.new }
{
    let (letters, _) = text.as_chunks::<3>();
    for (byte, [_, high, low]) in room.iter_mut().zip(letters) {
        *byte = digit(*high) * 16 + digit(*low);
    }
    letters.len().min(room.len())
}

// The value of a hex digit in lower case. The file of cases has no other letters, so there is no Option as of to_digit.
fn digit(letter: u8) -> u8
    ensures { result < 16 }
{
    if letter < b'a' {
        return letter % 16;
    }
    (letter % 16 + 9) % 16
}

// The first four bytes as a number, high byte first; 0 where there are fewer.
fn number(bytes: &[u8]) -> u32 {
    bytes
        .first_chunk()
        .map_or(0, |four| u32::from_be_bytes(*four))
}
