// The questions by a queue of terms: what is asked at a term is asked on at once, record by record. A question that was asked on
// asks for nothing unmarked, and stays so, because marks only grow. Which question comes next is only a hint.
ghost use Rattle.std.specs.Prelude.{◌≡◌, IfSome, IsTrue, ◌↔◌, ◌*◌, ◌<◌, ◌≤◌};
ghost use Rattle.meaning.specs.Limits.{terms, records};
ghost use Rattle.records.specs.declared.Label.{Label};
ghost use Rattle.records.specs.declared.Label.TheVariants.{Any, Term, Test};
ghost use Rattle.fewest.specs.Offer.{place};
ghost use Rattle.fewest.specs.Work.{Tests, Sits};
ghost use Rattle.fewest.specs.Tasks.{ThreadsOf};
ghost use Rattle.asked.specs.Mark.{Marked};
ghost use Rattle.asked.specs.Serve.{Waits, NoneWaits, OneServed, Fewer, Kept, most, Picked};
ghost use Rattle.asked.specs.Seek.{Bits, marks_in};
ghost use Rattle.asked.specs.Task.{AtQuestion, OnwardIn, PursuedIn, StepAskedIn, StayAskedIn, RecordAskedIn, ChasedIn};

use crate::follow::{After, follow};
use crate::mark::{MOST, WAITS, mark, queued, take_up};
use crate::seek::pursue;
use crate::wait::left_over;
use crate::words::{SIZE, only, word as set_at};
use fewest::look::parts_of;
use fewest::table::{ENTRIES, NUMBERS};
use fewest::task::Task;
use fewest::threads::Walk;
use fewest::word::word;
use records::rule::record_of;
use records::site::term_at;
use records::{Axis, Label, RECORDS, Record, Step};

// The label of a step, told by a type, so that the compiler knows it where it makes a loop along a thread.
// With the label as a value in one loop one input took 73 % more instructions.
trait Labelled: Copy {
    ghost label: { Self → Label };

    fn label(self) -> Label
        ensures { result ≡ label self };
}

#[derive(Clone, Copy)]
struct Plain;

#[derive(Clone, Copy)]
struct Named(usize);

#[derive(Clone, Copy)]
struct Tested;

impl Labelled for Plain {
    ghost label = { λ _. Any };

    fn label(self) -> Label {
        Label::Any
    }
}

impl Labelled for Named {
    ghost label = { λ name. Term name.0 };

    fn label(self) -> Label {
        Label::Term(self.0)
    }
}

impl Labelled for Tested {
    ghost label = { λ _. Test };

    fn label(self) -> Label {
        Label::Test
    }
}

// Each triple that a step of record r takes along its axis from t, by the threads.
fn go<L: Labelled>(
    task: &Task,
    axis: Axis,
    step: L,
    next: After,
    numbers: &[u8; NUMBERS],
    asked: &mut [u8; ENTRIES],
    ends: &mut [u8],
    tail: &mut usize,
    r: usize,
    t: usize,
)
    requires { AtQuestion task.now asked.old ends.old r t × OnwardIn task.now r next × Tests (L.label step) r }
    ensures { StepAskedIn task.now numbers.now (record { axis = Some axis; label = L.label step }) r t (marks_in asked.old ends.old) (marks_in asked.new ends.new) × Kept asked.old asked.new }
{
    let site = &task.site;
    let parts = parts_of(axis);
    let mut walk = Walk::new(asked, axis, t);
    while let Some(k) = walk.next(site, asked) {
        let middle = term_at(site.bytes, k, parts.middle);
        let to = term_at(site.bytes, k, parts.to);
        pursue(
            numbers,
            asked,
            ends,
            tail,
            step.label(),
            r,
            next,
            middle,
            to,
        );
    }
}

// Each triple that the step of record r with this axis and label takes from t, in a loop for each kind of label.
fn go_all(
    task: &Task,
    axis: Axis,
    label: Label,
    numbers: &[u8; NUMBERS],
    asked: &mut [u8; ENTRIES],
    ends: &mut [u8],
    tail: &mut usize,
    r: usize,
    t: usize,
)
    requires { AtQuestion task.now asked.old ends.old r t × Tests label r }
    ensures { StepAskedIn task.now numbers.now (record { axis = Some axis; label = label }) r t (marks_in asked.old ends.old) (marks_in asked.new ends.new) × Kept asked.old asked.new }
{
    let next = follow(&task.ahead, r);
    match label {
        Label::Any => go(task, axis, Plain, next, numbers, asked, ends, tail, r, t),
        Label::Term(name) => go(
            task,
            axis,
            Named(name),
            next,
            numbers,
            asked,
            ends,
            tail,
            r,
            t,
        ),
        Label::Test => go(task, axis, Tested, next, numbers, asked, ends, tail, r, t),
    }
}

// Staying at t for record r. What is marked at t itself is not queued: the turn there goes on until nothing waits.
fn rest_on(
    task: &Task,
    numbers: &[u8; NUMBERS],
    asked: &mut [u8; ENTRIES],
    ends: &mut [u8],
    tail: usize,
    label: Label,
    r: usize,
    t: usize,
)
    requires { Bits ends.old × (r < records) × (t < terms) × Tests label r }
    ensures { PursuedIn task.now numbers.now label r t t (marks_in asked.old ends.old) (marks_in asked.new ends.new) × Kept asked.old asked.new }
{
    let next = follow(&task.ahead, r);
    let mut aside = tail;
    pursue(numbers, asked, ends, &mut aside, label, r, next, t, t);
}

// Staying at t for record r, if t is in the vocabulary.
fn stay(
    task: &Task,
    numbers: &[u8; NUMBERS],
    asked: &mut [u8; ENTRIES],
    ends: &mut [u8],
    tail: usize,
    label: Label,
    r: usize,
    t: usize,
)
    requires { Bits ends.old × (r < records) × (t < terms) × Tests label r × Marked (marks_in asked.old ends.old) r t }
    ensures { StayAskedIn task.now numbers.now asked.old label r t (marks_in asked.old ends.old) (marks_in asked.new ends.new) × Kept asked.old asked.new }
{
    if word(asked, task.site.triples, t) {
        rest_on(task, numbers, asked, ends, tail, label, r, t);
    }
}

// What the step of record r asks for at t, whatever its axis.
fn ask_step(
    task: &Task,
    step: Step,
    numbers: &[u8; NUMBERS],
    asked: &mut [u8; ENTRIES],
    ends: &mut [u8],
    tail: &mut usize,
    r: usize,
    t: usize,
)
    requires { AtQuestion task.now asked.old ends.old r t × Tests step.label r }
    ensures { StepAskedIn task.now numbers.now step r t (marks_in asked.old ends.old) (marks_in asked.new ends.new) × Kept asked.old asked.new }
{
    if let Some(axis) = step.axis {
        go_all(task, axis, step.label, numbers, asked, ends, tail, r, t);
    } else if let Label::Term(name) = step.label {
        if name == t {
            rest_on(task, numbers, asked, ends, *tail, step.label, r, t);
        }
    } else {
        stay(task, numbers, asked, ends, *tail, step.label, r, t);
    }
}

// What the question of record r at t asks for, by its record; `first` is the record of a join's first operand.
fn ask_on(
    task: &Task,
    rec: Record,
    first: usize,
    numbers: &[u8; NUMBERS],
    asked: &mut [u8; ENTRIES],
    ends: &mut [u8],
    tail: &mut usize,
    r: usize,
    t: usize,
)
    requires { AtQuestion task.now asked.old ends.old r t × Sits rec r × (first < records) }
    ensures { RecordAskedIn task.now numbers.now rec first r t (marks_in asked.old ends.old) (marks_in asked.new ends.new) × Kept asked.old asked.new }
{
    match rec {
        Record::Step(step) => ask_step(task, step, numbers, asked, ends, tail, r, t),
        Record::Sequence => {
            mark(asked, only(first), t);
        }
        Record::Choice => {
            mark(asked, only(first), t);
            mark(asked, only(r - 1), t);
        }
        Record::Star => {
            mark(asked, only(r - 1), t);
            stay(task, numbers, asked, ends, *tail, Label::Any, r, t);
        }
    }
}

// The question of record r at t is asked on, if it waits.
fn ask_one(
    task: &Task,
    numbers: &[u8; NUMBERS],
    asked: &mut [u8; ENTRIES],
    ends: &mut [u8],
    tail: &mut usize,
    r: usize,
    t: usize,
)
    requires { Bits ends.old × (r < task.now.rule.count) × (t < terms) × ThreadsOf task.now asked.old }
    ensures { ChasedIn task.now numbers.now asked.old ends.old asked.new ends.new × OneServed r t asked.old asked.new }
{
    if take_up(asked, r, t) {
        let rec = record_of(task.rule.bytes, task.rule.starts, r);
        let operand = task.ahead.links.first(r);
        ask_on(task, rec, operand, numbers, asked, ends, tail, r, t);
    }
}

// The lowest of the first records that wait at t, if one does. A hint.
#[tactic(auto, unfolding(meaning::specs::Limits::terms))]
fn lowest(asked: &[u8; ENTRIES], count: usize, t: usize) -> Option<usize>
    requires { t < terms }
    ensures { IfSome result (λ r. r < count) }
{
    let r = set_at(asked, WAITS + SIZE * t).trailing_zeros() as usize;
    (r < count).then_some(r)
}

// The question of a record at t is asked on, if it waits, and then what waits at t, one by one: no record waits there twice.
fn ask_at(
    task: &Task,
    numbers: &[u8; NUMBERS],
    asked: &mut [u8; ENTRIES],
    ends: &mut [u8],
    tail: &mut usize,
    from: usize,
    t: usize,
)
    requires { Bits ends.old × (from < task.now.rule.count) × (t < terms) × ThreadsOf task.now asked.old }
    ensures { ChasedIn task.now numbers.now asked.old ends.old asked.new ends.new × (Waits asked.old (place from t) → Fewer asked.old asked.new) }
{
    let mut r = from;
    for _turn in 0..RECORDS {
        ask_one(task, numbers, asked, ends, tail, r, t);
        let Some(next) = lowest(asked, task.rule.count, t) else {
            return;
        };
        r = next;
    }
}

// The queue of terms: how many were taken from it, and how many were put in. A hint.
#[derive(Clone, Copy)]
struct Queue {
    head: usize,
    tail: usize,
}

impl Queue {
    // A term is queued, and not too many were before it.
    #[tactic(auto, unfolding(meaning::specs::Limits::terms, meaning::specs::Limits::records))]
    fn goes_on(self) -> bool
        ensures { IsTrue result ↔ (self.head < most) × (self.head < self.tail) }
    {
        self.head < MOST && self.head < self.tail
    }

    // The term at the head is taken, if one is there.
    fn pass(&mut self)
        ensures { (self.old.head ≤ self.new.head) × (self.old.head < most → self.old.head < self.old.tail → self.old.head < self.new.head) }
    {
        if self.goes_on() {
            self.head += 1;
        }
    }
}

// The question to be asked on next, as a record and a term: at the term at the head of the queue, or one that waits, if one does.
fn pick(asked: &[u8; ENTRIES], count: usize, queue: Queue) -> Option<(usize, usize)>
    requires { (0 < count) × (count ≤ records) }
    ensures { Picked count queue.head queue.tail asked.now result }
{
    if !queue.goes_on() {
        return left_over(asked, count);
    }
    let t = queued(asked, queue.head);
    Some((lowest(asked, count, t).unwrap_or(0), t))
}

// What is asked for is marked, from the questions that wait, until none does.
pub fn chase(
    task: &Task,
    numbers: &[u8; NUMBERS],
    asked: &mut [u8; ENTRIES],
    ends: &mut [u8],
    tail: usize,
)
    requires { Bits ends.old × (0 < task.now.rule.count) × ThreadsOf task.now asked.old }
    ensures { ChasedIn task.now numbers.now asked.old ends.old asked.new ends.new × NoneWaits asked.new (task.now.rule.count * terms) }
{
    let mut queue = Queue { head: 0, tail };
    while let Some((r, t)) = pick(asked, task.rule.count, queue) {
        queue.pass();
        ask_at(task, numbers, asked, ends, &mut queue.tail, r, t);
    }
}
