// One look at one offer: an entry is lowered to it where it is lower, and whether anything changed is handed on.
ghost use Rattle.std.specs.Prelude.{◌≡◌, ◌<◌};
ghost use Rattle.meaning.specs.Limits.{terms, records};
ghost use Rattle.fewest.specs.Pairs.{pairs};
ghost use Rattle.fewest.specs.Work.{goal_of, Tests, allowing, parts_of, Axial, moved_at, Looked, Rested};

use crate::left::left;
use crate::table::{NUMBERS, lower, number};
use crate::task::{Ahead, Site};
use records::site::{OBJECT, PREDICATE, SUBJECT, term_at};
use records::{Axis, Label, NONE};

// A triple as an axis takes it: from a term to a term, past a middle.
#[derive(Clone, Copy)]
pub struct Moved {
    pub from: usize,
    pub middle: usize,
    pub to: usize,
}

// Where the terms stand in a triple's record, as an axis takes them: a type of its own, so that places and terms are not mixed up.
#[derive(Clone, Copy)]
pub struct Parts {
    pub from: usize,
    pub middle: usize,
    pub to: usize,
}

// As this axis takes them.
pub fn parts_of(axis: Axis) -> Parts
    ensures { result ≡ parts_of axis }
{
    match axis {
        Axis::Next => Parts {
            from: SUBJECT,
            middle: PREDICATE,
            to: OBJECT,
        },
        Axis::NextInverse => Parts {
            from: OBJECT,
            middle: PREDICATE,
            to: SUBJECT,
        },
        Axis::Edge => Parts {
            from: SUBJECT,
            middle: OBJECT,
            to: PREDICATE,
        },
        Axis::EdgeInverse => Parts {
            from: PREDICATE,
            middle: OBJECT,
            to: SUBJECT,
        },
        Axis::Node => Parts {
            from: PREDICATE,
            middle: SUBJECT,
            to: OBJECT,
        },
        Axis::NodeInverse => Parts {
            from: OBJECT,
            middle: SUBJECT,
            to: PREDICATE,
        },
    }
}

// Triple k, its terms read where they stand. Which axis it is was decided before the loop that goes by triples.
pub fn move_at(site: &Site, k: usize, parts: Parts) -> Moved
    requires { (k < site.now.triples) × Axial parts }
    ensures { result ≡ moved_at site.now.bytes.now k parts }
{
    Moved {
        from: term_at(site.bytes, k, parts.from),
        middle: term_at(site.bytes, k, parts.middle),
        to: term_at(site.bytes, k, parts.to),
    }
}

// The label of record r lets this middle pass. Its test is the row before.
pub fn allows(numbers: &[u8; NUMBERS], label: Label, r: usize, middle: usize) -> bool
    requires { (r < records) × (middle < terms) × Tests label r }
    ensures { result ≡ allowing (pairs numbers.now) label r middle }
{
    match label {
        Label::Any => true,
        Label::Term(term) => middle == term,
        Label::Test => number(numbers, r - 1, middle) < NONE,
    }
}

// Triple k for the step of record r: the entry where the triple begins is lowered to one more than what is left where it ends. No
// step leads to the finish with less than one, so that then nothing is looked up.
pub fn look(
    site: &Site,
    k: usize,
    parts: Parts,
    label: Label,
    ahead: &Ahead,
    numbers: &mut [u8; NUMBERS],
    r: usize,
    was: bool,
) -> bool
    requires { (k < site.now.triples) × (r < records) × Tests label r × Axial parts }
    ensures { Looked site.now.bytes.now k parts label ahead.now.links.now.up ahead.now.links.now.role (goal_of ahead.now.goal) r (pairs numbers.old) (pairs numbers.new) was result }
{
    let m = move_at(site, k, parts);
    if number(numbers, r, m.from) <= 1 {
        return was;
    }
    if allows(numbers, label, r, m.middle) {
        let rest = left(ahead, numbers, r, m.to);
        return lower(numbers, r, m.from, rest + 1, was);
    }
    was
}

// Staying at a term t for record r: a star's empty round at no cost, a self step at the cost of one. It leads to the finish with no less
// than its cost, which is a number since it is compared and added.
pub fn rest(
    ahead: &Ahead,
    numbers: &mut [u8; NUMBERS],
    label: Label,
    cost: usize,
    r: usize,
    t: usize,
    was: bool,
) -> bool
    requires { (r < records) × (t < terms) × Tests label r × (cost < 2) }
    ensures { Rested ahead.now.links.now.up ahead.now.links.now.role (goal_of ahead.now.goal) label cost r t (pairs numbers.old) (pairs numbers.new) was result }
{
    if number(numbers, r, t) <= cost {
        return was;
    }
    if allows(numbers, label, r, t) {
        let rest = left(ahead, numbers, r, t);
        return lower(numbers, r, t, rest + cost, was);
    }
    was
}
