// The triples threaded by their terms, in scratch: for each term the first triple with that subject, predicate or object, and for each
// triple the next with the same predicate and with the same object, none left out. By subject the site is in order: the next is the one after.
ghost use Rattle.std.specs.Prelude.{ℕ, ◌+◌, ◌<◌, ◌≤◌, ◌≡◌, Some, IfSome, length};
ghost use Rattle.records.specs.Rules.{axis_of};
ghost use Rattle.fewest.specs.Cells.{values, cells};
ghost use Rattle.fewest.specs.Threads.{object_next, Blank, Headed, ThreadedOne, Threads, ThreadFirst, firsts_of, nexts_of, object_first, ThreadNext, SubjectNext, Along, Stepped, AtMiddle, AtFinish};
ghost use Rattle.std.proofs.Props.{props};

use crate::cells::{CELL, cell, put_cell};
use crate::table::ENTRIES;
use crate::task::Site;
use records::site::{OBJECT, PREDICATE, SUBJECT, term_at};
use records::{Axis, TERMS, TRIPLES};

// Where the first triples and the next ones stand; what is behind them is free.
const FIRST_SUBJECT: usize = 0;

const FIRST_PREDICATE: usize = FIRST_SUBJECT + TERMS;

const FIRST_OBJECT: usize = FIRST_PREDICATE + TERMS;

const NEXT_PREDICATE: usize = FIRST_OBJECT + TERMS;

const NEXT_OBJECT: usize = NEXT_PREDICATE + TRIPLES;

pub const FREE: usize = NEXT_OBJECT + TRIPLES;

// Every cell names nothing.
fn clear(scratch: &mut [u8])
    ensures { Blank scratch.new }
{
    scratch.fill(255);
}

// Triple k becomes the first of a thread. What the thread's cell held goes into the triple's own, byte by byte.
fn head(scratch: &mut [u8], first: usize, next: usize, k: usize)
    requires { (first + first + 1 < length scratch.old) × (next + next + 1 < length scratch.old) × (k < values) }
    ensures { Headed first next k (cells scratch.old) (cells scratch.new) }
{
    let low = scratch[first + first];
    let high = scratch[first + first + 1];
    scratch[next + next] = low;
    scratch[next + next + 1] = high;
    put_cell(scratch, first, k);
}

// Triple k becomes the first of its threads.
fn thread_one(site: &Site, k: usize, scratch: &mut [u8; ENTRIES])
    requires { k < site.now.triples }
    ensures { ThreadedOne site.now.bytes.now k scratch.old scratch.new }
{
    let subject = term_at(site.bytes, k, SUBJECT);
    let predicate = term_at(site.bytes, k, PREDICATE);
    let object = term_at(site.bytes, k, OBJECT);
    put_cell(scratch, FIRST_SUBJECT + subject, k);
    head(scratch, FIRST_PREDICATE + predicate, NEXT_PREDICATE + k, k);
    head(scratch, FIRST_OBJECT + object, NEXT_OBJECT + k, k);
}

// The threads of a site: from the last triple to the first, so that each goes up.
pub fn thread(site: &Site, scratch: &mut [u8; ENTRIES])
    ensures { Threads site.now.bytes.now site.now.triples scratch.new }
{
    clear(scratch);
    for k in (0..site.triples).rev() {
        thread_one(site, k, scratch);
    }
}

// Where the first triples of an axis's threads stand.
#[tactic(auto, unfolding(crate::specs::Threads::firsts_of, meaning::specs::Limits::terms))]
fn firsts_by(axis: Axis) -> usize
    ensures { (result ≡ firsts_of axis) × (result ≤ object_first) }
{
    match axis {
        Axis::Next | Axis::Edge => FIRST_SUBJECT,
        Axis::NextInverse | Axis::NodeInverse => FIRST_OBJECT,
        Axis::EdgeInverse | Axis::Node => FIRST_PREDICATE,
    }
}

// The first triple by which an axis leads from t. No Option: a cell of scratch is not trusted, so what it names is compared with
// how many triples there are anyway.
pub fn first_from(scratch: &[u8], axis: Axis, t: usize) -> usize
    ensures { ThreadFirst scratch.now axis t result }
{
    cell(scratch, firsts_by(axis) + t % TERMS)
}

// An axis and its inverse lead the same triples from and to the other's ends.
pub fn inverse(axis: Axis) -> Axis
    ensures { AtFinish (axis_of axis) result }
{
    match axis {
        Axis::Next => Axis::NextInverse,
        Axis::NextInverse => Axis::Next,
        Axis::Edge => Axis::EdgeInverse,
        Axis::EdgeInverse => Axis::Edge,
        Axis::Node => Axis::NodeInverse,
        Axis::NodeInverse => Axis::Node,
    }
}

// Where the next triples of an axis's threads stand, of those that lead from a term; nowhere, if the site's order tells them.
#[tactic(auto, unfolding(crate::specs::Threads::nexts_of, meaning::specs::Limits::terms, meaning::specs::Limits::triples))]
pub fn next_by(axis: Axis) -> Option<usize>
    ensures { (result ≡ nexts_of axis) × IfSome result (λ i. i ≤ object_next) }
{
    match axis {
        Axis::Next | Axis::Edge => None,
        Axis::NextInverse | Axis::NodeInverse => Some(NEXT_OBJECT),
        Axis::EdgeInverse | Axis::Node => Some(NEXT_PREDICATE),
    }
}

// The next triple after k that leads from t, by where the next ones stand; as many as there are triples where there is none:
// the same test ends a thread that its first cell ends.
pub fn next_from(site: &Site, scratch: &[u8], by: Option<usize>, t: usize, k: usize) -> usize
    requires { (k < site.now.triples) × ((p : ℕ) → by ≡ Some p → p ≤ object_next) }
    ensures { ThreadNext site.now.bytes.now site.now.triples scratch.now by t k result }
{
    match by {
        None => same_subject(site, t, k),
        Some(place) => later(site.triples, cell(scratch, place + k), k),
    }
}

// A thread goes up: a next triple that does not stand later ends it.
fn later(triples: usize, next: usize, k: usize) -> usize
    requires { k < triples }
    ensures { (k < result) × ((k < next) → (result ≡ next)) }
{
    if next <= k {
        return triples;
    }
    next
}

// The triple after k, if it has subject t: triples with the same subject stand together.
fn same_subject(site: &Site, t: usize, k: usize) -> usize
    requires { k < site.now.triples }
    ensures { SubjectNext site.now.bytes.now site.now.triples t k result }
{
    let next = k + 1;
    if next < site.triples && term_at(site.bytes, next, SUBJECT) == t {
        return next;
    }
    site.triples
}

// A walk along the triples that an axis leads from a term: where its next triples stand, and the one at which it is. The threads stand
// in scratch, which may change between two steps: the walk does not borrow it.
#[derive(Clone, Copy)]
pub struct Walk {
    by: Option<usize>,
    term: usize,
    at: usize,
    ghost near: { (p : ℕ) → by ≡ Some p → p ≤ object_next } by { Prim.hlevel props },
}

impl Walk {
    pub fn new(scratch: &[u8], axis: Axis, t: usize) -> Walk
        ensures { Along axis t result.by result.term × ThreadFirst scratch.now axis t result.at }
    {
        Walk {
            by: next_by(axis),
            term: t,
            at: first_from(scratch, axis, t),
        }
    }

    // The triple at which the walk is, and on to the next.
    pub fn next(&mut self, site: &Site, scratch: &[u8]) -> Option<usize>
        ensures { (self.new.by ≡ self.old.by) × (self.new.term ≡ self.old.term) × Stepped site.now.bytes.now site.now.triples scratch.now self.old.by self.old.term self.old.at self.new.at result }
    {
        let k = self.at;
        if k < site.triples {
            self.at = next_from(site, scratch, self.by, self.term, k);
            return Some(k);
        }
        None
    }
}

// A triple that has the term as subject or object; the greatest value of a cell where the term is outside the vocabulary.
// No Option: it is compared with how many triples there are before it is used.
pub fn witness(scratch: &[u8], t: usize) -> usize {
    let k = cell(scratch, FIRST_SUBJECT + t % TERMS);
    if k < CELL - 1 {
        return k;
    }
    cell(scratch, FIRST_OBJECT + t % TERMS)
}

// The axis that starts where this one has its middle: along it the triples with a named middle are threaded.
pub fn by_middle(axis: Axis) -> Axis
    ensures { AtMiddle (axis_of axis) result }
{
    match axis {
        Axis::Next | Axis::NextInverse => Axis::Node,
        Axis::Edge | Axis::EdgeInverse => Axis::NextInverse,
        Axis::Node | Axis::NodeInverse => Axis::Next,
    }
}
