// The number table by levels: from the finish of each body, the innermost body first, one step more at each level. What is stored
// is offered by the table; where to look is a hint from scratch, and the sweep that follows certifies that nothing is missing.
#![tactic(auto, using(crate::proofs::Levelling::levelling, crate::proofs::Steps::steps), unfolding(meaning::specs::Limits::records, meaning::specs::Limits::terms, meaning::specs::Limits::triples, meaning::specs::Limits::none))]

ghost use Rattle.std.specs.Prelude.{◌≡◌, ◌<◌};
ghost use Rattle.meaning.specs.Limits.{terms, records};
ghost use Rattle.meaning.specs.Move.{self};
ghost use Rattle.records.specs.declared.Record.TheVariants.{Star};
ghost use Rattle.fewest.specs.Pairs.{pairs};
ghost use Rattle.fewest.specs.Offer.{Lowers};
ghost use Rattle.fewest.specs.Work.{goal_of, Tests, work_of, Sits};
ghost use Rattle.fewest.specs.Kept.{Kept};
ghost use Rattle.fewest.specs.Tasks.{framed, ThreadsOf};
ghost use Rattle.levels.specs.Levelled.{Stayed, Reached, TakesBy, RecordWorked, HintedFor, LevelledFor};

use crate::bits::Bits;
use crate::level::Level;
use crate::node::Node;
use crate::sets::{
    DONE, LIST, NEW, before, befores, ends_in_star, last_in, lasts, orders, parent_of, place_of,
    record_in, root_of, size_of, sizes, step_of,
};
use crate::spot::Spot;
use crate::step::{RuleStep, step_at};
use fewest::Goal;
use fewest::cells::{cell, put_set, put_sets};
use fewest::left::left;
use fewest::links::Role;
use fewest::look::{Moved, Parts, allows, move_at, parts_of, rest};
use fewest::sweep::{sweep_axis, sweep_thread};
use fewest::table::{ENTRIES, NUMBERS, lower, number};
use fewest::task::{Ahead, Task};
use fewest::threads::{Walk, by_middle, inverse, thread};
use records::{Axis, Label, NONE, RECORDS, Record, TERMS};

// Staying at a term for record r, where the term stands in a triple.
fn stay(
    task: &Task,
    numbers: &mut [u8; NUMBERS],
    label: Label,
    cost: usize,
    r: usize,
    at: Spot,
) -> bool
    requires { (r < records) × Tests label r × (cost < 2) }
    ensures { Stayed (framed task.now) label cost r (pairs numbers.old) (pairs numbers.new) }
{
    if at.stands(&task.site) {
        return rest(&task.ahead, numbers, label, cost, r, at.term, false);
    }
    false
}

// A star's entry at a term, from its operand's or, where that is no lower, by an empty round.
fn star_at(task: &Task, numbers: &mut [u8; NUMBERS], r: usize, at: Spot) -> bool
    requires { (r < records) × (0 < r) }
    ensures { RecordWorked (framed task.now) Star 0 r (pairs numbers.old) (pairs numbers.new) }
{
    let v = number(numbers, r - 1, at.term);
    if lower(numbers, r, at.term, v, false) {
        return true;
    }
    stay(task, numbers, Label::Any, 0, r, at)
}

// The entry of record r at a term, from its operands'; a step has none.
fn column(task: &Task, numbers: &mut [u8; NUMBERS], node: Node, r: usize, at: Spot) -> bool
    requires { (r < records) × Sits node.rec r × (node.first < records) }
    ensures { RecordWorked (framed task.now) node.rec node.first r (pairs numbers.old) (pairs numbers.new) }
{
    match node.rec {
        Record::Step(_) => false,
        Record::Sequence => {
            let v = number(numbers, node.first, at.term);
            lower(numbers, r, at.term, v, false)
        }
        Record::Choice => {
            let v = number(numbers, node.first, at.term);
            let one = lower(numbers, r, at.term, v, false);
            let w = number(numbers, r - 1, at.term);
            lower(numbers, r, at.term, w, one)
        }
        Record::Star => star_at(task, numbers, r, at),
    }
}

// The entry of record r at a term, if it has none yet.
fn fill_in(task: &Task, numbers: &mut [u8; NUMBERS], r: usize, at: Spot)
    ensures { HintedFor task.now numbers.old numbers.new }
{
    if task.rule.count <= r || number(numbers, r, at.term) < NONE {
        return;
    }
    let node = Node::of(&task.rule, task.ahead.links, r);
    column(task, numbers, node, r, at);
}

// The entries at a term of those records of the expression of record r that may end with a star, in the order second operand,
// first operand, record: where the expression may be finished, such a star may pass empty.
fn fill_within(task: &Task, scratch: &[u8], numbers: &mut [u8; NUMBERS], r: usize, at: Spot)
    ensures { HintedFor task.now numbers.old numbers.new }
{
    let end = place_of(scratch, r) + 1;
    for place in end.saturating_sub(size_of(scratch, r))..end {
        let q = record_in(scratch, place);
        if ends_in_star(scratch, q) {
            fill_in(task, numbers, q, at);
        }
    }
}

// That, if the expression may end with a star at all, which may pass empty in the vocabulary.
fn pass(task: &Task, scratch: &[u8], numbers: &mut [u8; NUMBERS], r: usize, at: Spot)
    ensures { HintedFor task.now numbers.old numbers.new }
{
    if at.in_vocabulary(&task.site) && ends_in_star(scratch, r) {
        fill_within(task, scratch, numbers, r, at);
    }
}

// What may be finished at a term where this operand of a record has a new entry: the first of a sequence where it is the second,
// itself where it is a star's; else nothing.
fn finished_by(node: Node, operand: usize) -> Option<usize> {
    match node.rec {
        Record::Sequence if node.first != operand => Some(node.first),
        Record::Star => Some(operand),
        _ => None,
    }
}

// The entry of an operand at a term is new: what may be finished there passes empty, and the record above takes the entry if it
// is lower.
fn climb_one(
    task: &Task,
    scratch: &[u8],
    numbers: &mut [u8; NUMBERS],
    operand: usize,
    above: usize,
    at: Spot,
) -> bool
    ensures { HintedFor task.now numbers.old numbers.new }
{
    if task.rule.count <= above {
        return false;
    }
    let node = Node::of(&task.rule, task.ahead.links, above);
    if let Some(done) = finished_by(node, operand) {
        pass(task, scratch, numbers, done, at);
    }
    column(task, numbers, node, above, at)
}

// The entry of record r at a term is new: so may be those of the records above it.
fn climb(task: &Task, scratch: &[u8], numbers: &mut [u8; NUMBERS], r: usize, at: Spot)
    requires { r < records }
    ensures { HintedFor task.now numbers.old numbers.new }
{
    let mut operand = r;
    // No iterator of parents: what is stored at each step tells whether the next is gone to.
    loop {
        let above = parent_of(scratch, operand);
        if above <= operand || !climb_one(task, scratch, numbers, operand, above, at) {
            return;
        }
        operand = above;
    }
}

// Of these steps those that may be open at a term: all in the vocabulary. Outside of it a star does not pass empty, and only those
// are open after which something is left.
fn possible(task: &Task, scratch: &[u8], numbers: &[u8; NUMBERS], set: usize, at: Spot) -> usize {
    if at.in_vocabulary(&task.site) {
        return set;
    }
    let mut open = 0;
    for bit in Bits(set) {
        let r = step_of(scratch, bit);
        if left(&task.ahead, numbers, r, at.term) < NONE {
            open |= 1 << bit;
        }
    }
    open
}

// The entries of these steps at a term are new, and climb. The steps that may come before one of them.
fn rise(task: &Task, scratch: &[u8], numbers: &mut [u8; NUMBERS], new: usize, at: Spot) -> usize
    ensures { HintedFor task.now numbers.old numbers.new }
{
    let mut all = 0;
    for bit in Bits(new) {
        let r = step_of(scratch, bit);
        climb(task, scratch, numbers, r, at);
        all |= before(scratch, r);
    }
    all
}

// What is new at t at a level climbs, and gives way to what is open there: the steps that may come before, and those of `also`,
// but for those that were open earlier.
fn rise_term(
    task: &Task,
    scratch: &mut [u8],
    numbers: &mut [u8; NUMBERS],
    level: Level,
    also: usize,
    t: usize,
)
    requires { t < terms }
    ensures { LevelledFor task.now numbers.old numbers.new scratch.old scratch.new }
{
    let at = Spot::of(scratch, t);
    let new = level.steps(scratch, t);
    let all = also | rise(task, scratch, numbers, new, at);
    let done = cell(scratch, DONE + t);
    let open = possible(task, scratch, numbers, all & !done, at);
    put_set(scratch, DONE + t, open | done);
    level.put_steps(scratch, t, open);
}

// That at each term of a level.
fn rise_level(
    task: &Task,
    scratch: &mut [u8],
    numbers: &mut [u8; NUMBERS],
    level: Level,
    also: usize,
)
    ensures { LevelledFor task.now numbers.old numbers.new scratch.old scratch.new }
{
    for i in 0..level.len {
        let t = level.term(scratch, i);
        rise_term(task, scratch, numbers, level, also, t);
    }
}

// A move for the step of record r: true where it gives an entry to a term that had none.
fn reach(ahead: &Ahead, numbers: &mut [u8; NUMBERS], label: Label, r: usize, m: Moved) -> bool
    requires { (r < records) × Tests label r × (m.from < terms) × (m.middle < terms) × (m.to < terms) }
    ensures { Reached m label ahead.now.links.now.up ahead.now.links.now.role (goal_of ahead.now.goal) r (pairs numbers.old) (pairs numbers.new) }
{
    if number(numbers, r, m.from) < NONE {
        return false;
    }
    if allows(numbers, label, r, m.middle) {
        let rest = left(ahead, numbers, r, m.to);
        return lower(numbers, r, m.from, rest + 1, false);
    }
    false
}

// Triple k for a step, which is the set `one`: where it gives a term an entry, that is new at the next level.
fn take(
    step: &RuleStep,
    scratch: &mut [u8],
    numbers: &mut [u8; NUMBERS],
    next: &mut Level,
    one: usize,
    parts: Parts,
    k: usize,
)
    requires { (k < step.now.task.now.site.triples) × TakesBy step.now.read.axis parts }
    ensures { LevelledFor step.now.task.now numbers.old numbers.new scratch.old scratch.new }
{
    let task = step.task;
    let m = move_at(&task.site, k, parts);
    if reach(&task.ahead, numbers, step.read.label, step.r, m) {
        next.note(scratch, one, m.from);
    }
}

// Each triple by which a step, which has this axis, leads to t.
fn take_all(
    step: &RuleStep,
    axis: Axis,
    scratch: &mut [u8],
    numbers: &mut [u8; NUMBERS],
    next: &mut Level,
    one: usize,
    t: usize,
)
    requires { step.now.read.axis ≡ Some axis }
    ensures { LevelledFor step.now.task.now numbers.old numbers.new scratch.old scratch.new }
{
    let site = &step.task.site;
    let parts = parts_of(axis);
    let mut walk = Walk::new(scratch, inverse(axis), t);
    while let Some(k) = walk.next(site, scratch) {
        take(step, scratch, numbers, next, one, parts, k);
    }
}

// A self step of record r at a term: at its named term, or in the vocabulary.
fn rest_at(task: &Task, numbers: &mut [u8; NUMBERS], label: Label, r: usize, at: Spot) -> bool
    requires { (r < records) × Tests label r }
    ensures { Lowers (framed task.now) (work_of self label) r (pairs numbers.old) (pairs numbers.new) }
{
    match label {
        Label::Term(term) if term == at.term => {
            rest(&task.ahead, numbers, label, 1, r, term, false)
        }
        Label::Term(_) => false,
        Label::Any | Label::Test => stay(task, numbers, label, 1, r, at),
    }
}

// A step that is open at t.
fn take_step(
    step: &RuleStep,
    scratch: &mut [u8],
    numbers: &mut [u8; NUMBERS],
    next: &mut Level,
    one: usize,
    t: usize,
)
    requires { t < terms }
    ensures { LevelledFor step.now.task.now numbers.old numbers.new scratch.old scratch.new }
{
    if let Some(axis) = step.read.axis {
        take_all(step, axis, scratch, numbers, next, one, t);
    } else if rest_at(
        step.task,
        numbers,
        step.read.label,
        step.r,
        Spot::of(scratch, t),
    ) {
        next.note(scratch, one, t);
    }
}

// Each step of a set that is open at t, as far as the hints are right.
fn take_set(
    task: &Task,
    scratch: &mut [u8],
    numbers: &mut [u8; NUMBERS],
    next: &mut Level,
    set: usize,
    t: usize,
)
    requires { t < terms }
    ensures { LevelledFor task.now numbers.old numbers.new scratch.old scratch.new }
{
    for bit in Bits(set) {
        if let Some(step) = step_at(&*task, step_of(scratch, bit)) {
            take_step(&step, scratch, numbers, next, 1 << bit, t);
        }
    }
}

// What is open at t at a level is taken; what is new then stands at the next.
fn take_term(
    task: &Task,
    scratch: &mut [u8],
    numbers: &mut [u8; NUMBERS],
    level: Level,
    next: &mut Level,
    t: usize,
)
    requires { t < terms }
    ensures { LevelledFor task.now numbers.old numbers.new scratch.old scratch.new }
{
    let set = level.steps(scratch, t);
    level.put_steps(scratch, t, 0);
    take_set(task, scratch, numbers, next, set, t);
}

// That at each term of a level. The next level.
// Not one loop with `rise_level`: the work would be a closure with a law for all that it keeps, which is longer than this loop.
fn take_level(task: &Task, scratch: &mut [u8], numbers: &mut [u8; NUMBERS], level: Level) -> Level
    ensures { LevelledFor task.now numbers.old numbers.new scratch.old scratch.new }
{
    let mut next = level.next();
    for i in 0..level.len {
        let t = level.term(scratch, i);
        take_term(task, scratch, numbers, level, &mut next, t);
    }
    next
}

// The body of root b may finish at t alone: there it may pass empty, and the first level is t.
fn begin(task: &Task, scratch: &mut [u8], numbers: &mut [u8; NUMBERS], b: usize, t: usize) -> Level
    requires { t < terms }
    ensures { LevelledFor task.now numbers.old numbers.new scratch.old scratch.new }
{
    put_sets(scratch, DONE, LIST, 0);
    let mut level = Level::first();
    level.push(scratch, t);
    pass(task, scratch, numbers, b, Spot::of(scratch, t));
    level
}

// A body that ends with a star may finish at t: there the star may pass empty, and what may be last is not opened again. Outside
// the vocabulary a star does not pass empty, so that what may be last is found once more when the star is entered.
fn finish_at(task: &Task, scratch: &mut [u8], numbers: &mut [u8; NUMBERS], b: usize, t: usize)
    requires { t < terms }
    ensures { LevelledFor task.now numbers.old numbers.new scratch.old scratch.new }
{
    let at = Spot::of(scratch, t);
    if !at.in_vocabulary(&task.site) {
        put_set(scratch, DONE + t, 0);
        return;
    }
    fill_within(task, scratch, numbers, b, at);
    put_set(scratch, DONE + t, last_in(scratch, b));
}

// That at each term.
fn finish_all(task: &Task, scratch: &mut [u8], numbers: &mut [u8; NUMBERS], b: usize)
    ensures { LevelledFor task.now numbers.old numbers.new scratch.old scratch.new }
{
    for t in 0..TERMS {
        finish_at(task, scratch, numbers, b, t);
    }
}

// The body of root b may finish anywhere: what may be last in it is swept, and not opened again.
fn finish(task: &Task, scratch: &mut [u8], numbers: &mut [u8; NUMBERS], b: usize)
    ensures { LevelledFor task.now numbers.old numbers.new scratch.old scratch.new }
{
    if ends_in_star(scratch, b) {
        finish_all(task, scratch, numbers, b);
        return;
    }
    put_sets(scratch, DONE, LIST, last_in(scratch, b));
}

// A self step of record r at each term.
fn rest_all(task: &Task, scratch: &[u8], numbers: &mut [u8; NUMBERS], label: Label, r: usize)
    requires { (r < records) × Tests label r }
    ensures { Lowers (framed task.now) (work_of self label) r (pairs numbers.old) (pairs numbers.new) }
{
    for t in 0..TERMS {
        rest_at(task, numbers, label, r, Spot::of(scratch, t));
    }
}

// A step that may be last in a body that may finish anywhere: in the order of the site.
fn sweep_last(last: &RuleStep, scratch: &[u8], numbers: &mut [u8; NUMBERS])
    ensures { HintedFor last.now.task.now numbers.old numbers.new }
{
    let task = last.task;
    let label = last.read.label;
    let Some(axis) = last.read.axis else {
        return rest_all(task, scratch, numbers, label, last.r);
    };
    if let Label::Term(term) = label {
        let by = by_middle(axis);
        sweep_thread(
            &task.site,
            scratch,
            axis,
            label,
            by,
            term,
            &task.ahead,
            numbers,
            last.r,
            false,
        );
        return;
    }
    sweep_axis(&task.site, axis, label, &task.ahead, numbers, last.r, false);
}

// Record r, which is such a step if the hint is right.
fn sweep_record(task: &Task, scratch: &[u8], numbers: &mut [u8; NUMBERS], r: usize)
    ensures { HintedFor task.now numbers.old numbers.new }
{
    if let Some(last) = step_at(&*task, r) {
        sweep_last(&last, scratch, numbers);
    }
}

// The entries of step record r are new at the first level.
fn note_all(numbers: &[u8; NUMBERS], scratch: &mut [u8], level: &mut Level, one: usize, r: usize)
    requires { r < records }
    ensures { Kept scratch.old scratch.new }
{
    for t in 0..TERMS {
        if number(numbers, r, t) < NONE {
            level.note(scratch, one, t);
        }
    }
}

// The first level of a body that may finish anywhere: what may be last in it is swept, and what it gives is new.
fn begin_all(task: &Task, scratch: &mut [u8], numbers: &mut [u8; NUMBERS], b: usize) -> Level
    ensures { LevelledFor task.now numbers.old numbers.new scratch.old scratch.new }
{
    finish(task, scratch, numbers, b);
    let mut level = Level::first();
    for bit in Bits(last_in(scratch, b)) {
        let r = step_of(scratch, bit);
        sweep_record(task, scratch, numbers, r);
        note_all(numbers, scratch, &mut level, 1 << bit, r);
    }
    level
}

// The one term at which the body of root b may finish: a test finishes anywhere, the rule's own body where the goal allows it.
fn only_end(ahead: &Ahead, b: usize) -> Option<usize>
    requires { b < records }
{
    match ahead.goal {
        Goal::End(end) if ahead.links.role(b) == Role::Whole => Some(end),
        _ => None,
    }
}

// The first level of the body of root b.
fn begin_body(
    task: &Task,
    scratch: &mut [u8],
    numbers: &mut [u8; NUMBERS],
    b: usize,
    end: Option<usize>,
) -> Level
    ensures { LevelledFor task.now numbers.old numbers.new scratch.old scratch.new }
{
    match end {
        None => begin_all(task, scratch, numbers, b),
        Some(end) if end < TERMS => begin(task, scratch, numbers, b, end),
        Some(_) => Level::first(),
    }
}

// Level after level, until one is empty; there are never more levels than entries. All of a level rises before any of it is taken,
// for what is taken is new at the next alone. At the first, the steps of `opening` are open too.
fn run_levels(
    task: &Task,
    scratch: &mut [u8],
    numbers: &mut [u8; NUMBERS],
    first: Level,
    opening: usize,
)
    ensures { LevelledFor task.now numbers.old numbers.new scratch.old scratch.new }
{
    let mut level = first;
    let mut also = opening;
    for _ in 0..ENTRIES {
        if level.len == 0 {
            return;
        }
        rise_level(task, scratch, numbers, level, also);
        level = take_level(task, scratch, numbers, level);
        also = 0;
    }
}

// The entries of the body of root b. If it may finish at one term alone, what may be last in it is open there with nothing new.
fn search(task: &Task, scratch: &mut [u8], numbers: &mut [u8; NUMBERS], b: usize)
    requires { b < records }
    ensures { LevelledFor task.now numbers.old numbers.new scratch.old scratch.new }
{
    let links = task.ahead.links;
    lasts(&task.rule, links, b, scratch);
    befores(&task.rule, links, b, scratch);
    let end = only_end(&task.ahead, b);
    let level = begin_body(task, scratch, numbers, b, end);
    let opening = if end.is_some() {
        last_in(scratch, b)
    } else {
        0
    };
    run_levels(task, scratch, numbers, level, opening)
}

// Body after body, the inner ones first: a test's last record stands before the step's.
fn search_all(task: &Task, scratch: &mut [u8], numbers: &mut [u8; NUMBERS])
    ensures { LevelledFor task.now numbers.old numbers.new scratch.old scratch.new }
{
    for b in 0..task.rule.count.min(RECORDS) {
        if root_of(scratch, b) == b {
            search(task, scratch, numbers, b);
        }
    }
}

// The whole table. The threads stand afterwards.
pub fn levels(task: &Task, scratch: &mut [u8; ENTRIES], numbers: &mut [u8; NUMBERS])
    ensures { HintedFor task.now numbers.old numbers.new × ThreadsOf task.now scratch.new }
{
    let links = task.ahead.links;
    thread(&task.site, scratch);
    sizes(&task.rule, links, scratch);
    orders(&task.rule, links, scratch);
    put_sets(scratch, NEW, DONE, 0);
    search_all(task, scratch, numbers)
}
