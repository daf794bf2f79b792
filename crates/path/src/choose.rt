// The smallest step: of the open records in ascending order the first that offers one, and of its triples the first.
ghost use Rattle.std.specs.Prelude.{◌<◌};
ghost use Rattle.meaning.specs.Limits.{terms, records};
ghost use Rattle.meaning.specs.Site.{Site, Voc};
ghost use Rattle.meaning.specs.Move.{self};
ghost use Rattle.records.specs.Sites.{site_of};
ghost use Rattle.records.specs.Rules.{axis_of, axis_meant, records_of};
ghost use Rattle.fewest.specs.Pairs.{pairs};
ghost use Rattle.fewest.specs.Frame.{frame};
ghost use Rattle.fewest.specs.Work.{goal_of, Tests};
ghost use Rattle.fewest.specs.Tasks.{framed, ThreadsOf};
ghost use Rattle.fewest.specs.Tells.{Tells};
ghost use Rattle.path.specs.Offers.{Suited, MayStay, SmallestBy, SmallestOf, SmallestOpen};

use crate::Taken;
use fewest::left::left;
use fewest::look::{Moved, allows, move_at, parts_of};
use fewest::table::NUMBERS;
use fewest::task::{Ahead, Task};
use fewest::threads::Walk;
use records::rule::record_of;
use records::{Axis, Label, NONE, RECORDS, Record, Step};

// The move begins at t, the label of record r lets its middle pass, and d steps are left where it ends.
fn suits(
    ahead: &Ahead,
    numbers: &[u8; NUMBERS],
    label: Label,
    r: usize,
    m: Moved,
    t: usize,
    d: usize,
) -> bool
    requires { (r < records) × Tests label r × (m.middle < terms) × (m.to < terms) }
    ensures { Suited ahead.now.links.now.up ahead.now.links.now.role (goal_of ahead.now.goal) (pairs numbers.now) label r m t d result }
{
    m.from == t && allows(numbers, label, r, m.middle) && left(ahead, numbers, r, m.to) == d
}

// One may stay at a term of the vocabulary, or at a named term where the step is named.
fn may_stay(word: bool, label: Label) -> bool
    ensures { MayStay word label result }
{
    match label {
        Label::Any | Label::Test => word,
        Label::Term(_) => true,
    }
}

// The self step of record r at t.
fn by_self(
    ahead: &Ahead,
    numbers: &[u8; NUMBERS],
    label: Label,
    word: bool,
    r: usize,
    t: usize,
    d: usize,
) -> Option<Taken>
    requires { (r < records) × Tests label r × (t < terms) }
    ensures { (s : Site) → Tells (Voc s t) word → SmallestBy (frame s ahead.now.links.now.up ahead.now.links.now.role (goal_of ahead.now.goal)) (pairs numbers.now) self label t d r result }
{
    let m = Moved {
        from: t,
        middle: t,
        to: t,
    };
    if may_stay(word, label) && suits(ahead, numbers, label, r, m, t, d) {
        return Some(Taken {
            by: r,
            over: NONE,
            to: t,
        });
    }
    None
}

// The first triple by which record r can be taken from t, of those that the axis starts at t: they are threaded.
fn by_thread(
    task: &Task,
    scratch: &[u8],
    numbers: &[u8; NUMBERS],
    axis: Axis,
    label: Label,
    r: usize,
    t: usize,
    d: usize,
) -> Option<Taken>
    requires { ThreadsOf task.now scratch.now × (r < records) × Tests label r × (t < terms) }
    ensures { SmallestBy (framed task.now) (pairs numbers.now) (axis_of axis) label t d r result }
{
    let site = &task.site;
    let parts = parts_of(axis);
    let mut walk = Walk::new(scratch, axis, t);
    while let Some(k) = walk.next(site, scratch) {
        let m = move_at(site, k, parts);
        let to = m.to;
        if suits(&task.ahead, numbers, label, r, m, t, d) {
            return Some(Taken { by: r, over: k, to });
        }
    }
    None
}

// The smallest step of record r, which is this step.
fn by_step(
    task: &Task,
    scratch: &[u8],
    numbers: &[u8; NUMBERS],
    step: Step,
    word: bool,
    r: usize,
    t: usize,
    d: usize,
) -> Option<Taken>
    requires { ThreadsOf task.now scratch.now × (r < records) × Tests step.label r × (t < terms) × Tells (Voc (site_of task.now.site.bytes.now task.now.site.triples) t) word }
    ensures { SmallestBy (framed task.now) (pairs numbers.now) (axis_meant step.axis) step.label t d r result }
{
    match step.axis {
        None => by_self(&task.ahead, numbers, step.label, word, r, t, d),
        Some(axis) => by_thread(task, scratch, numbers, axis, step.label, r, t, d),
    }
}

// The smallest step of record r, if it is open and a step.
fn of_record(
    task: &Task,
    scratch: &[u8],
    numbers: &[u8; NUMBERS],
    shut: &[bool; RECORDS],
    word: bool,
    r: usize,
    t: usize,
    d: usize,
) -> Option<Taken>
    requires { ThreadsOf task.now scratch.now × (r < task.now.rule.count) × (t < terms) × Tells (Voc (site_of task.now.site.bytes.now task.now.site.triples) t) word }
    ensures { SmallestOf (framed task.now) (pairs numbers.now) (records_of task.now.rule.bytes.now) shut.now t d r result }
{
    if shut[r] {
        return None;
    }
    match record_of(task.rule.bytes, task.rule.starts, r) {
        Record::Step(step) => by_step(task, scratch, numbers, step, word, r, t, d),
        Record::Sequence | Record::Choice | Record::Star => None,
    }
}

// The smallest step of all open records.
pub fn choose(
    task: &Task,
    scratch: &[u8],
    numbers: &[u8; NUMBERS],
    shut: &[bool; RECORDS],
    word: bool,
    t: usize,
    d: usize,
) -> Option<Taken>
    requires { ThreadsOf task.now scratch.now × (t < terms) × Tells (Voc (site_of task.now.site.bytes.now task.now.site.triples) t) word }
    ensures { SmallestOpen (framed task.now) (pairs numbers.now) (records_of task.now.rule.bytes.now) shut.now t d result }
{
    for r in 0..task.rule.count {
        let found = of_record(task, scratch, numbers, shut, word, r, t, d);
        if found.is_some() {
            return found;
        }
    }
    None
}
