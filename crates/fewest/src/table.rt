// Entries of the lent table by record and term: the only functions that know how a place is counted.
ghost use Rattle.std.specs.Prelude.{◌≡◌, ◌+◌, ◌*◌, ◌<◌, ◌≤◌};
ghost use Rattle.meaning.specs.Limits.{terms, records, none};
ghost use Rattle.fewest.specs.Pairs.{pairs};
ghost use Rattle.fewest.specs.Offer.{place, view};
ghost use Rattle.fewest.specs.Table.{Lowered};

use crate::pairs::{get, put};
use records::{RECORDS, TERMS};

// The entries of a table by record and term, and its bytes where each takes two.
pub const ENTRIES: usize = RECORDS * TERMS;

pub const NUMBERS: usize = ENTRIES + ENTRIES;

// The place of an entry.
pub fn entry(r: usize, t: usize) -> usize
    requires { (r < records) × (t < terms) }
    ensures { (result ≡ place r t) × (result < records * terms) }
{
    r * TERMS + t
}

// The entry of record r at term t: a number of steps or NONE, the table's own number, which compares above them all.
pub fn number(numbers: &[u8; NUMBERS], r: usize, t: usize) -> usize
    requires { (r < records) × (t < terms) }
    ensures { (result ≡ view (pairs numbers.now) r t) × (result ≤ none) }
{
    get(numbers, entry(r, t))
}

// The entry becomes v where v is lower. True if it did, or if anything was changed before.
pub fn lower(numbers: &mut [u8; NUMBERS], r: usize, t: usize, v: usize, was: bool) -> bool
    requires { (r < records) × (t < terms) }
    ensures { Lowered r t v (pairs numbers.old) (pairs numbers.new) was result }
{
    let i = entry(r, t);
    if v < get(numbers, i) {
        put(numbers, i, v);
        return true;
    }
    was
}
