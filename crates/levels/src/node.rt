// A record of the rule with its operands.
#![tactic(auto, unfolding(meaning::specs::Limits::records))]

ghost use Rattle.std.specs.Prelude.{◌≡◌, ◌-◌, ◌<◌, get_or};
ghost use Rattle.meaning.specs.Limits.{records};
ghost use Rattle.records.specs.Rules.{record_at};

use fewest::links::Links;
use fewest::task::Rule;
use records::Record;
use records::rule::record_of;

// A record, and the records of its operands as far as it has them: a join's first, and the one before it.
#[derive(Clone, Copy)]
pub struct Node {
    pub rec: Record,
    pub first: usize,
    pub second: usize,
}

impl Node {
    // Record r of a rule with these links.
    pub fn of(rule: &Rule, links: &Links, r: usize) -> Node
        requires { r < records }
        ensures { (result.rec ≡ record_at rule.now.bytes.now (get_or rule.now.starts.now r 0)) × (result.first ≡ get_or links.now.first r 0) × (result.second ≡ r - 1) }
    {
        Node {
            rec: record_of(rule.bytes, rule.starts, r),
            first: links.first(r),
            second: r.saturating_sub(1),
        }
    }
}
