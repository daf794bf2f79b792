// A step of the rule that a task is for, by its record.
#![tactic(auto, unfolding(crate::specs::Levelled::Stepping))]

ghost use Rattle.std.specs.Prelude.{◌≡◌, ◌<◌, IfSome};
ghost use Rattle.std.proofs.Props.{props};
ghost use Rattle.levels.specs.Levelled.{Stepping};
ghost use Rattle.levels.specs.Once.{stepping_once};

use fewest::task::Task;
use records::rule::record_of;
use records::{Record, Step};

// Record r of the rule, which is this step.
#[derive(Clone, Copy)]
pub struct RuleStep<'a> {
    pub task: &'a Task<'a>,
    pub r: usize,
    pub read: Step,
    pub ghost here: { r < task.now.rule.count } by { Prim.hlevel props },
    pub ghost reads: { Stepping task.now.rule.bytes.now task.now.rule.starts.now r read } by { stepping_once _ _ _ _ },
}

// Record r, if the rule has it and it is a step.
pub fn step_at<'a>(task: &'a Task<'a>, r: usize) -> Option<RuleStep<'a>>
    ensures { IfSome result (λ s. (s.task.now ≡ task.now) × (s.r ≡ r)) }
{
    if task.rule.count <= r {
        return None;
    }
    match record_of(task.rule.bytes, task.rule.starts, r) {
        Record::Step(step) => Some(RuleStep {
            task,
            r,
            read: step,
        }),
        _ => None,
    }
}
