// Which steps may be last in an expression, and which may come before it, as sets of the steps of its body: hints for the order
// of work, read off the rule. A body has at most 16 steps, so a set has 16 bits; nothing rests on what a hint says.
#![tactic(auto, unfolding(meaning::specs::Limits::records, meaning::specs::Limits::terms, meaning::specs::Limits::triples))]

ghost use Rattle.std.specs.Prelude.{◌<◌};
ghost use Rattle.meaning.specs.Limits.{records};
ghost use Rattle.fewest.specs.Kept.{Kept};

use crate::node::Node;
use fewest::cells::{cell, put_set};
use fewest::links::Links;
use fewest::task::Rule;
use fewest::threads::FREE;
use records::{Label, RECORDS, Record, Step, TERMS};

// Scratch behind the threads, in cells: for two levels by turns, which steps are new at a term and, once they have risen, which are
// open; which ever were open; the lists of both levels, a byte for a term; and the columns of the hints.
pub const NEW: usize = FREE;

pub const DONE: usize = NEW + TERMS + TERMS;

pub const LIST: usize = DONE + TERMS;

const HINTS: usize = LIST + TERMS;

// The columns of the hints, an entry a record.
#[derive(Clone, Copy)]
enum Column {
    Size, // its size and flags
    Place, // its place in the order second operand, first operand, record
    Order, // the record at a place
    Root, // the last record of its body
    Last, // the steps that may be last in it
    Before, // those that may come before
    Parent, // its parent in its body
    Steps, // by its bit, the record of a step
}

// Flags beside the size: the expression may pass empty at a term of the vocabulary; it may end with a star.
// Bits of the size's cell, and no columns of their own: the columns fill the table to its last cell.
const EMPTY: usize = 64;

const STAR: usize = 128;

// An entry of the columns.
fn hint(scratch: &[u8], column: Column, r: usize) -> usize {
    cell(scratch, HINTS + column as usize * RECORDS + r % RECORDS)
}

fn put_hint(scratch: &mut [u8], column: Column, r: usize, v: usize)
    ensures { Kept scratch.old scratch.new }
{
    put_set(scratch, HINTS + column as usize * RECORDS + r % RECORDS, v);
}

// A name for each column: some promise a record and some do not, so that one function for all would promise less.

pub fn size_of(scratch: &[u8], r: usize) -> usize {
    hint(scratch, Column::Size, r) % EMPTY
}

// The place of record r in the order.
pub fn place_of(scratch: &[u8], r: usize) -> usize
    ensures { result < records }
{
    hint(scratch, Column::Place, r) % RECORDS
}

pub fn record_in(scratch: &[u8], place: usize) -> usize {
    hint(scratch, Column::Order, place) % RECORDS
}

pub fn root_of(scratch: &[u8], r: usize) -> usize {
    hint(scratch, Column::Root, r) % RECORDS
}

// The record of its parent; 0, which is no parent's, for the last record of a body.
// 0 and not an Option: a hint is one cell, and the columns fill the table to its last cell.
pub fn parent_of(scratch: &[u8], r: usize) -> usize
    ensures { result < records }
{
    hint(scratch, Column::Parent, r) % RECORDS
}

// The step record with this bit in the sets of its body.
pub fn step_of(scratch: &[u8], bit: usize) -> usize
    ensures { result < records }
{
    hint(scratch, Column::Steps, bit) % RECORDS
}

pub fn last_in(scratch: &[u8], r: usize) -> usize {
    hint(scratch, Column::Last, r)
}

pub fn before(scratch: &[u8], r: usize) -> usize {
    hint(scratch, Column::Before, r)
}

// The flag where the expression may pass empty, else 0; and where it may end with a star.
fn empty(scratch: &[u8], r: usize) -> usize {
    hint(scratch, Column::Size, r) & EMPTY
}

fn star(scratch: &[u8], r: usize) -> usize {
    hint(scratch, Column::Size, r) & STAR
}

pub fn ends_in_star(scratch: &[u8], r: usize) -> bool {
    star(scratch, r) != 0
}

// This set where the flag is up, else none.
fn only_if(flag: usize, set: usize) -> usize {
    if flag == 0 { 0 } else { set }
}

// One more than the sizes of the operands.
fn more(a: usize, b: usize) -> usize {
    1 + a % EMPTY + b % EMPTY
}

// The size of a record and its flags, from those of its operands.
fn sized(node: Node, scratch: &[u8]) -> usize {
    let Node { rec, first, second } = node;
    match rec {
        Record::Step(
            Step {
                label: Label::Test,
                ..
            },
        ) => more(0, size_of(scratch, second)),
        Record::Step(_) => 1,
        Record::Sequence => {
            let flags = empty(scratch, first) & empty(scratch, second)
                | star(scratch, second)
                | only_if(empty(scratch, second), star(scratch, first));
            more(size_of(scratch, first), size_of(scratch, second)) | flags
        }
        Record::Choice => {
            let flags = empty(scratch, first)
                | empty(scratch, second)
                | star(scratch, first)
                | star(scratch, second);
            more(size_of(scratch, first), size_of(scratch, second)) | flags
        }
        Record::Star => more(0, size_of(scratch, second)) | EMPTY | STAR,
    }
}

// The sizes of all records, from the first to the last.
pub fn sizes(rule: &Rule, links: &Links, scratch: &mut [u8])
    ensures { Kept scratch.old scratch.new }
{
    for r in 0..rule.count.min(RECORDS) {
        let size = sized(Node::of(rule, links, r), scratch);
        put_hint(scratch, Column::Size, r, size);
    }
}

// Record r stands at this place, in the body of this root, below this parent.
fn stand(scratch: &mut [u8], r: usize, place: usize, root: usize, parent: usize)
    ensures { Kept scratch.old scratch.new }
{
    put_hint(scratch, Column::Place, r, place);
    put_hint(scratch, Column::Order, place, r);
    put_hint(scratch, Column::Root, r, root);
    put_hint(scratch, Column::Parent, r, parent);
}

// The operands of record r take their places before it.
fn order(node: Node, r: usize, scratch: &mut [u8])
    ensures { Kept scratch.old scratch.new }
{
    let Node { rec, first, second } = node;
    let place = place_of(scratch, r).saturating_sub(1);
    let root = root_of(scratch, r);
    match rec {
        Record::Step(
            Step {
                label: Label::Test,
                ..
            },
        ) => stand(scratch, second, place, second, 0),
        Record::Step(_) => {}
        Record::Sequence | Record::Choice => {
            stand(scratch, first, place, root, r);
            let size = size_of(scratch, first);
            stand(scratch, second, place.saturating_sub(size), root, r);
        }
        Record::Star => stand(scratch, second, place, root, r),
    }
}

// The places of all records, from the last to the first.
// Not one loop with `sizes`: they go in opposite directions, and what is left in common is the range.
pub fn orders(rule: &Rule, links: &Links, scratch: &mut [u8])
    ensures { Kept scratch.old scratch.new }
{
    let whole = rule.count.saturating_sub(1);
    stand(scratch, whole, whole, whole, 0);
    for r in (0..rule.count.min(RECORDS)).rev() {
        order(Node::of(rule, links, r), r, scratch);
    }
}

// The steps that may be last in record r, which is step number n of its body if it is a step. How many steps there are now.
fn put_last(node: Node, r: usize, n: usize, scratch: &mut [u8]) -> usize
    ensures { Kept scratch.old scratch.new }
{
    let Node { rec, first, second } = node;
    let (set, steps) = match rec {
        Record::Step(_) => {
            put_hint(scratch, Column::Steps, n, r);
            (1 << (n % 16), n % RECORDS + 1)
        }
        Record::Sequence => {
            let last = only_if(empty(scratch, second), last_in(scratch, first));
            (last_in(scratch, second) | last, n)
        }
        Record::Choice => (last_in(scratch, first) | last_in(scratch, second), n),
        Record::Star => (last_in(scratch, second), n),
    };
    put_hint(scratch, Column::Last, r, set);
    steps
}

// What may be last in the records of the body of root b, and its steps, by their bits.
pub fn lasts(rule: &Rule, links: &Links, b: usize, scratch: &mut [u8])
    ensures { Kept scratch.old scratch.new }
{
    if RECORDS <= b {
        return;
    }
    let mut steps = 0;
    for r in (b + 1).saturating_sub(size_of(scratch, b))..b + 1 {
        if root_of(scratch, r) == b {
            steps = put_last(Node::of(rule, links, r), r, steps, scratch);
        }
    }
}

// The steps that may come before the operands of record r.
fn put_before(node: Node, r: usize, scratch: &mut [u8])
    ensures { Kept scratch.old scratch.new }
{
    let Node { rec, first, second } = node;
    let set = before(scratch, r);
    match rec {
        Record::Step(_) => {}
        Record::Sequence => {
            put_hint(scratch, Column::Before, first, set);
            let then = last_in(scratch, first) | only_if(empty(scratch, first), set);
            put_hint(scratch, Column::Before, second, then);
        }
        Record::Choice => {
            put_hint(scratch, Column::Before, first, set);
            put_hint(scratch, Column::Before, second, set);
        }
        Record::Star => {
            let again = set | last_in(scratch, second);
            put_hint(scratch, Column::Before, second, again);
        }
    }
}

// What may come before the records of the body of root b.
// Not one loop with `lasts`: they go in opposite directions, and that one hands the number of steps on.
pub fn befores(rule: &Rule, links: &Links, b: usize, scratch: &mut [u8])
    ensures { Kept scratch.old scratch.new }
{
    if RECORDS <= b {
        return;
    }
    put_hint(scratch, Column::Before, b, 0);
    for r in ((b + 1).saturating_sub(size_of(scratch, b))..b + 1).rev() {
        if root_of(scratch, r) == b {
            put_before(Node::of(rule, links, r), r, scratch);
        }
    }
}
