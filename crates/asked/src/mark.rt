// Marks in the byte table, a set of records for each term, and in the table of ends where one is lent. A second set for each term
// says which of its questions wait to be asked on.
ghost use Rattle.std.specs.Prelude.{◌<◌};
ghost use Rattle.meaning.specs.Limits.{terms, records};
ghost use Rattle.fewest.specs.Offer.{place};
ghost use Rattle.fewest.specs.Tells.{Tells};
ghost use Rattle.asked.specs.Serve.{Waits, Aside, TakenUp, Renewed, SetMarked};
ghost use Rattle.asked.specs.Seek.{ArrivedIf};

use crate::words::{SIZE, only, put_word, word};
use fewest::table::ENTRIES;
use fewest::threads::FREE;
use records::{RECORDS, TERMS};

// Behind the threads: a ring of terms that are queued, the words of the marks, and the words of what waits.
// The ring is bytes of the lent table, and no VecDeque: the evaluator has fixed memory and no heap.
const QUEUE: usize = FREE + FREE;

const RING: usize = TERMS + TERMS;

pub const MARKS: usize = QUEUE + RING;

pub const WAITS: usize = MARKS + SIZE * TERMS;

// So many terms and one more are queued in all, whatever the hints say. What is left then still waits.
pub const MOST: usize = 4 * RECORDS * TERMS;

// Term t waits at the end of the queue.
#[tactic(auto, unfolding(meaning::specs::Limits::terms))]
pub fn push(asked: &mut [u8; ENTRIES], tail: &mut usize, t: usize)
    requires { t < terms }
    ensures { Aside asked.old asked.new }
{
    if *tail <= MOST {
        asked[QUEUE + *tail % RING] = t as u8;
        *tail += 1;
    }
}

// The term that was queued as number `head`, while it stands there.
#[tactic(auto, unfolding(meaning::specs::Limits::terms))]
pub fn queued(asked: &[u8; ENTRIES], head: usize) -> usize
    ensures { result < terms }
{
    usize::from(asked[QUEUE + head % RING]) % TERMS
}

// What is marked at t becomes another set, and what is new in it waits. The set that waited before.
#[tactic(auto, unfolding(meaning::specs::Limits::terms))]
fn renew(asked: &mut [u8; ENTRIES], t: usize, old: u32, all: u32) -> u32
    requires { t < terms }
    ensures { Renewed t old all asked.old asked.new }
{
    put_word(asked, MARKS + SIZE * t, all);
    let place = WAITS + SIZE * t;
    let waiting = word(asked, place);
    put_word(asked, place, waiting | (all ^ old));
    waiting
}

// The questions of these records at t are marked now, and those that were not wait. Whether something was new and none waited there
// before.
#[tactic(auto, unfolding(meaning::specs::Limits::terms))]
pub fn mark(asked: &mut [u8; ENTRIES], set: u32, t: usize) -> bool
    requires { t < terms }
    ensures { SetMarked set t asked.old asked.new }
{
    let old = word(asked, MARKS + SIZE * t);
    let all = old | set;
    if all == old {
        return false;
    }
    renew(asked, t, old, all) == 0
}

// The same, and where none waited, the term is queued.
pub fn mark_on(asked: &mut [u8; ENTRIES], tail: &mut usize, set: u32, t: usize)
    requires { t < terms }
    ensures { SetMarked set t asked.old asked.new }
{
    if mark(asked, set, t) {
        push(asked, tail, t);
    }
}

// The end u is marked now, where the rule is done and a table of ends is lent.
// Not lent is an empty table, and no Option: what is promised of `ask` (`MarkedIn`) speaks of as many ends as are lent.
pub fn arrive(ends: &mut [u8], home: bool, u: usize)
    ensures { ArrivedIf home u ends.old ends.new }
{
    if home && u < ends.len() {
        ends[u] = 1;
    }
}

// Whether the question of record r at t is marked and waits to be asked on.
#[tactic(auto, unfolding(meaning::specs::Limits::terms))]
pub fn waits_at(asked: &[u8; ENTRIES], r: usize, t: usize) -> bool
    requires { (r < records) × (t < terms) }
    ensures { Tells (Waits asked.now (place r t)) result }
{
    let marked = word(asked, MARKS + SIZE * t);
    let waiting = word(asked, WAITS + SIZE * t);
    marked & waiting & only(r) != 0
}

// The same; it waits no longer.
#[tactic(auto, unfolding(meaning::specs::Limits::terms))]
pub fn take_up(asked: &mut [u8; ENTRIES], r: usize, t: usize) -> bool
    requires { (r < records) × (t < terms) }
    ensures { TakenUp r t asked.old asked.new result }
{
    if !waits_at(asked, r, t) {
        return false;
    }
    let place = WAITS + SIZE * t;
    let waiting = word(asked, place);
    put_word(asked, place, waiting ^ only(r));
    true
}
