// Scratch in the lent byte table: cells of two bytes, low byte first, as the machine has them, so that one is read at once.
// The values are the list `cells` of the bytes. Past the end a cell reads 0 and takes no set.
ghost use Rattle.std.specs.Prelude.{◌≡◌, ◌+◌, ◌<◌, ◌≤◌, length, get_or, set};
ghost use Rattle.fewest.specs.Cells.{values, cells};
ghost use Rattle.fewest.specs.Threads.{free};
ghost use Rattle.fewest.specs.Kept.{Kept};

use records::bytes::BASE;

// A cell's value is below this; a cell that names nothing has the greatest.
pub const CELL: usize = BASE * BASE;

// The value of a cell.
pub fn cell(scratch: &[u8], i: usize) -> usize
    ensures { (result ≡ get_or (cells scratch.now) i 0) × (result < values) }
{
    if scratch.len() / 2 <= i {
        return 0;
    }
    usize::from(u16::from_le_bytes([scratch[i + i], scratch[i + i + 1]]))
}

// The cell takes a value.
pub fn put_cell(scratch: &mut [u8], i: usize, v: usize)
    requires { (i + i + 1 < length scratch.old) × (v < values) }
    ensures { cells scratch.new ≡ set (cells scratch.old) i v }
{
    let [low, high] = (v as u16).to_le_bytes();
    scratch[i + i] = low;
    scratch[i + i + 1] = high;
}

// The cell, which is behind the threads, takes a set of 16 bits.
pub fn put_set(scratch: &mut [u8], i: usize, set: usize)
    requires { free ≤ i }
    ensures { Kept scratch.old scratch.new }
{
    if scratch.len() / 2 <= i {
        return;
    }
    put_cell(scratch, i, set % CELL);
}

// The cells from one to another, which are behind the threads, take a set, if all of them are there.
pub fn put_sets(scratch: &mut [u8], from: usize, to: usize, set: usize)
    requires { free ≤ from }
    ensures { Kept scratch.old scratch.new }
{
    if scratch.len() / 2 < to {
        return;
    }
    for i in from..to {
        put_set(scratch, i, set);
    }
}

// A byte for itself, as the terms of a list stand.
pub fn byte_at(scratch: &[u8], i: usize) -> usize {
    if scratch.len() <= i {
        return 0;
    }
    usize::from(scratch[i])
}

// The byte, which is behind the threads, takes a value.
pub fn put_byte(scratch: &mut [u8], i: usize, v: usize)
    requires { free + free ≤ i }
    ensures { Kept scratch.old scratch.new }
{
    if scratch.len() <= i {
        return;
    }
    scratch[i] = (v % BASE) as u8;
}
