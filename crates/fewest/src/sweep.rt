// Sweeps over the table: row by row, record by record, until one changes nothing.
ghost use Rattle.std.specs.Prelude.{◌≡◌, ℕ, ◌*◌, ◌<◌, List, IfSome, replicate};
ghost use Rattle.meaning.specs.Limits.{terms, records, none};
ghost use Rattle.records.specs.declared.Record.TheVariants.{Star};
ghost use Rattle.fewest.specs.Pairs.{pairs};
ghost use Rattle.fewest.specs.Work.{goal_of, Tests, RowSwept, RestsSwept, AxisSwept, SelfSwept, OnlyEnd, ThreadSwept, StepSwept, Sits, RecordSwept};
ghost use Rattle.fewest.specs.Threads.{Threads};
ghost use Rattle.fewest.specs.Tasks.{ThreadsOf, SweptFor, SettledFor};

use crate::Goal;
use crate::links::Role;
use crate::look::{look, parts_of, rest};
use crate::rows::{above, star_quiet, step_quiet};
use crate::table::{NUMBERS, lower, number};
use crate::task::{Ahead, Site, Task};
use crate::threads::{Walk, by_middle, inverse};
use crate::word::word;
use records::rule::record_of;
use records::{Axis, Label, Record, Step, TERMS};

// Row r is lowered to row a, place by place, if it is above it anywhere.
fn sweep_row(numbers: &mut [u8; NUMBERS], r: usize, a: usize, was: bool) -> bool
    requires { (r < records) × (a < records) }
    ensures { RowSwept a r (pairs numbers.old) (pairs numbers.new) was result }
{
    if !above(numbers, r, a) {
        return was;
    }
    let mut changed = was;
    for t in 0..TERMS {
        let v = number(numbers, a, t);
        changed = lower(numbers, r, t, v, changed);
    }
    changed
}

// Staying at each vocabulary term, for record r.
fn sweep_rests(
    scratch: &[u8],
    triples: usize,
    ahead: &Ahead,
    numbers: &mut [u8; NUMBERS],
    label: Label,
    cost: usize,
    r: usize,
    was: bool,
) -> bool
    requires { (r < records) × Tests label r × (cost < 2) }
    ensures { (s : List ℕ) → Threads s triples scratch.now → RestsSwept s triples ahead.now.links.now.up ahead.now.links.now.role (goal_of ahead.now.goal) label cost r (pairs numbers.old) (pairs numbers.new) was result }
{
    let mut changed = was;
    for t in 0..TERMS {
        if word(scratch, triples, t) {
            changed = rest(ahead, numbers, label, cost, r, t, changed);
        }
    }
    changed
}

// Each triple for the step of record r with this axis and label.
pub fn sweep_axis(
    site: &Site,
    axis: Axis,
    label: Label,
    ahead: &Ahead,
    numbers: &mut [u8; NUMBERS],
    r: usize,
    was: bool,
) -> bool
    requires { (r < records) × Tests label r }
    ensures { AxisSwept site.now.bytes.now site.now.triples axis label ahead.now.links.now.up ahead.now.links.now.role (goal_of ahead.now.goal) r (pairs numbers.old) (pairs numbers.new) was result }
{
    let parts = parts_of(axis);
    let mut changed = was;
    for k in 0..site.triples {
        changed = look(site, k, parts, label, ahead, numbers, r, changed);
    }
    changed
}

// Each triple of one thread, for the step of record r with this axis and label. The others are known to offer nothing lower.
pub fn sweep_thread(
    site: &Site,
    scratch: &[u8],
    axis: Axis,
    label: Label,
    by: Axis,
    term: usize,
    ahead: &Ahead,
    numbers: &mut [u8; NUMBERS],
    r: usize,
    was: bool,
) -> bool
    requires { (r < records) × Tests label r × (term < terms) }
    ensures { ThreadSwept site.now.bytes.now site.now.triples scratch.now axis label by term ahead.now.links.now.up ahead.now.links.now.role (goal_of ahead.now.goal) r (pairs numbers.old) (pairs numbers.new) was result }
{
    let parts = parts_of(axis);
    let mut changed = was;
    let mut walk = Walk::new(scratch, by, term);
    while let Some(k) = walk.next(site, scratch) {
        changed = look(site, k, parts, label, ahead, numbers, r, changed);
    }
    changed
}

// The one term at which the rule is finished, where record r finishes it and there is such a term.
fn only_end(ahead: &Ahead, r: usize) -> Option<usize>
    requires { r < records }
    ensures { IfSome result (λ v. (v < terms) × OnlyEnd ahead.now.links.now.role (goal_of ahead.now.goal) r v) }
{
    match (ahead.goal, ahead.links.role(r)) {
        (Goal::End(term), Role::Whole) if term < TERMS => Some(term),
        _ => None,
    }
}

// A self step of record r with this label: at its named term, or at each vocabulary term.
fn sweep_self(
    site: &Site,
    scratch: &[u8],
    label: Label,
    ahead: &Ahead,
    numbers: &mut [u8; NUMBERS],
    r: usize,
    was: bool,
) -> bool
    requires { (r < records) × Tests label r × Threads site.now.bytes.now site.now.triples scratch.now }
    ensures { SelfSwept site.now.bytes.now site.now.triples label ahead.now.links.now.up ahead.now.links.now.role (goal_of ahead.now.goal) r (pairs numbers.old) (pairs numbers.new) was result }
{
    if let Label::Term(term) = label {
        return rest(ahead, numbers, label, 1, r, term, was);
    }
    sweep_rests(scratch, site.triples, ahead, numbers, label, 1, r, was)
}

// The step of record r, whatever its axis: by the triples with its name, or those that lead to the end where it finishes the rule, or
// all; self stays.
fn sweep_step(
    site: &Site,
    scratch: &[u8],
    step: Step,
    ahead: &Ahead,
    numbers: &mut [u8; NUMBERS],
    r: usize,
    was: bool,
) -> bool
    requires { (r < records) × Tests step.label r × Threads site.now.bytes.now site.now.triples scratch.now }
    ensures { StepSwept site.now.bytes.now site.now.triples step ahead.now.links.now.up ahead.now.links.now.role (goal_of ahead.now.goal) r (pairs numbers.old) (pairs numbers.new) was result }
{
    let label = step.label;
    let Some(axis) = step.axis else {
        return sweep_self(site, scratch, label, ahead, numbers, r, was);
    };
    if let Label::Term(term) = label {
        let by = by_middle(axis);
        return sweep_thread(site, scratch, axis, label, by, term, ahead, numbers, r, was);
    }
    if let Some(end) = only_end(ahead, r) {
        let back = inverse(axis);
        return sweep_thread(
            site, scratch, axis, label, back, end, ahead, numbers, r, was,
        );
    }
    if step_quiet(site, axis, label, ahead, numbers, r) {
        return was;
    }
    sweep_axis(site, axis, label, ahead, numbers, r, was)
}

// The star of record r, if it is not seen to be quiet: its round, and passing empty at each vocabulary term.
fn sweep_star(
    scratch: &[u8],
    triples: usize,
    ahead: &Ahead,
    numbers: &mut [u8; NUMBERS],
    r: usize,
    was: bool,
) -> bool
    requires { (r < records) × (0 < r) }
    ensures { (s : List ℕ) → Threads s triples scratch.now → RecordSwept s triples Star 0 ahead.now.links.now.up ahead.now.links.now.role (goal_of ahead.now.goal) r (pairs numbers.old) (pairs numbers.new) was result }
{
    if star_quiet(ahead, numbers, r) {
        return was;
    }
    let one = sweep_row(numbers, r, r - 1, was);
    sweep_rests(scratch, triples, ahead, numbers, Label::Any, 0, r, one)
}

// The row of record r, by its record; `first` is the record of a join's first operand.
fn sweep_record(
    site: &Site,
    scratch: &[u8],
    rec: Record,
    first: usize,
    ahead: &Ahead,
    numbers: &mut [u8; NUMBERS],
    r: usize,
    was: bool,
) -> bool
    requires { (r < records) × Sits rec r × (first < records) × Threads site.now.bytes.now site.now.triples scratch.now }
    ensures { RecordSwept site.now.bytes.now site.now.triples rec first ahead.now.links.now.up ahead.now.links.now.role (goal_of ahead.now.goal) r (pairs numbers.old) (pairs numbers.new) was result }
{
    match rec {
        Record::Step(step) => sweep_step(site, scratch, step, ahead, numbers, r, was),
        Record::Sequence => sweep_row(numbers, r, first, was),
        Record::Choice => {
            let one = sweep_row(numbers, r, first, was);
            sweep_row(numbers, r, r - 1, one)
        }
        Record::Star => sweep_star(scratch, site.triples, ahead, numbers, r, was),
    }
}

// Every row once. False where nothing changed.
fn sweep(task: &Task, scratch: &[u8], numbers: &mut [u8; NUMBERS]) -> bool
    requires { ThreadsOf task.now scratch.now }
    ensures { SweptFor task.now (pairs numbers.old) (pairs numbers.new) result }
{
    let mut changed = false;
    for r in 0..task.rule.count {
        let rec = record_of(task.rule.bytes, task.rule.starts, r);
        let first = task.ahead.links.first(r);
        changed = sweep_record(
            &task.site,
            scratch,
            rec,
            first,
            &task.ahead,
            numbers,
            r,
            changed,
        );
    }
    changed
}

// Sweeps until one changes nothing.
pub fn settle(task: &Task, scratch: &[u8], numbers: &mut [u8; NUMBERS])
    requires { ThreadsOf task.now scratch.now }
    ensures { SettledFor task.now (pairs numbers.old) (pairs numbers.new) }
{
    while sweep(task, scratch, numbers) {}
}

// Every entry becomes none.
pub fn clear(numbers: &mut [u8; NUMBERS])
    ensures { pairs numbers.new ≡ replicate (records * terms) none }
{
    numbers.fill(255);
}
