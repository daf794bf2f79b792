// The path that is shown, a step at a time: of the steps that can be taken where the walk stands, the smallest that
// begins a shortest way.
#![tactic(auto, unfolding(meaning::specs::Limits::records))]

pub mod choose; // choose.rt: the smallest step that leaves as few as are left
pub mod enter; // enter.rt: which records can be entered at no cost

ghost use Rattle.std.specs.Prelude.{◌<◌};
ghost use Rattle.meaning.specs.Limits.{terms};
ghost use Rattle.records.specs.Rules.{records_of};
ghost use Rattle.fewest.specs.Pairs.{pairs};
ghost use Rattle.fewest.specs.Tasks.{framed, ThreadsOf};
ghost use Rattle.path.specs.Pick.{Picked};
ghost use Rattle.path.specs.Flags.{Placed};

use choose::choose;
use enter::enter;
use fewest::table::NUMBERS;
use fewest::task::Task;
use fewest::word::word;
use records::RECORDS;

// One step of a path: its record, its triple (none for self) and the term reached.
// `over` is no Option: document 01's triple of a self step is 65,535, and the room takes that number.
#[derive(Clone, Copy)]
pub struct Taken {
    pub by: usize,
    pub over: usize,
    pub to: usize,
}

// The next step of a walk at term t, after a step of this record or before its first, with d steps left after it; None where there
// is none. The site's threads are in scratch.
pub fn next_step(
    task: &Task,
    scratch: &[u8],
    numbers: &[u8; NUMBERS],
    after: Option<usize>,
    t: usize,
    d: usize,
) -> Option<Taken>
    requires { ThreadsOf task.now scratch.now × (t < terms) × Placed after }
    ensures { Picked (framed task.now) (pairs numbers.now) (records_of task.now.rule.bytes.now) task.now.ahead.links.now.first after t d result }
{
    let here = word(scratch, task.site.triples, t);
    let mut shut = [true; RECORDS];
    enter(&task.rule, task.ahead.links, here, after, &mut shut);
    choose(task, scratch, numbers, &shut, here, t, d)
}
