// The marks at the end: what stood as words, a set of records for each term, becomes rows, a byte for each question.
// First each byte of the words gets a row of its own, where nothing waits any more, so that the compiler takes many terms at once.
ghost use Rattle.std.specs.Prelude.{◌≡◌, ◌-◌, ◌<◌, ◌≤◌};
ghost use Rattle.meaning.specs.Limits.{records};
ghost use Rattle.asked.specs.Words.{size};
ghost use Rattle.asked.specs.Serve.{markeds};
ghost use Rattle.asked.specs.Narrow.{Unmarked, LaidOut, LaidOutTo, RowOut, RowsOut, Cleared};

use crate::mark::{MARKS, WAITS};
use crate::words::SIZE;
use fewest::table::ENTRIES;
use records::{RECORDS, TERMS};

// So many records have their bits in one byte.
const BITS: usize = 8;

// Byte p of each word of marks, in a row.
fn lay_out(asked: &mut [u8; ENTRIES], p: usize)
    requires { p < size }
    ensures { LaidOut p asked.old asked.new }
{
    let row = WAITS + p * TERMS;
    for t in 0..TERMS {
        asked[row + t] = asked[MARKS + SIZE * t + p];
    }
}

// The bytes in which the first records have their bits.
#[tactic(auto, unfolding(meaning::specs::Limits::records))]
fn lay_out_all(asked: &mut [u8; ENTRIES], count: usize)
    requires { count ≤ records }
    ensures { LaidOutTo count asked.old asked.new }
{
    for p in 0..count.div_ceil(BITS) {
        lay_out(asked, p);
    }
}

// The row of record r takes its marks, a byte each.
#[tactic(auto, unfolding(meaning::specs::Limits::terms, meaning::specs::Limits::records))]
fn narrow_row(asked: &mut [u8; ENTRIES], r: usize)
    requires { r < records }
    ensures { RowOut r asked.old asked.new }
{
    let from = WAITS + r / BITS * TERMS;
    let row = r * TERMS;
    let bit = r % BITS;
    for t in 0..TERMS {
        asked[row + t] = asked[from + t] >> bit & 1;
    }
}

// The rows of the first records, in order: no row of bytes is written over before the last of its records takes its bits.
fn narrow_rows(asked: &mut [u8; ENTRIES], count: usize)
    requires { count ≤ records }
    ensures { RowsOut count asked.old asked.new }
{
    for r in 0..count {
        narrow_row(asked, r);
    }
}

// The rows from that of this record on are lent, one by one, to be filled with 0.
#[tactic(auto, unfolding(meaning::specs::Limits::terms, meaning::specs::Limits::records))]
pub fn clear_rows(asked: &mut [u8; ENTRIES], first: usize)
    requires { first ≤ records }
    ensures { Cleared first (records - first) asked.old asked.new }
{
    for r in first..RECORDS {
        let at = r * TERMS;
        asked[at..at + TERMS].fill(0);
    }
}

// The marks of the first records, row by row; the other records have none.
pub fn narrow(asked: &mut [u8; ENTRIES], count: usize)
    requires { (count ≤ records) × Unmarked count asked.old }
    ensures { asked.new ≡ markeds asked.old }
{
    lay_out_all(asked, count);
    narrow_rows(asked, count);
    clear_rows(asked, count);
}
