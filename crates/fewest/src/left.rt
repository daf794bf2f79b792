// What is left once a record's expression is finished at a term: the least of the numbers that may follow.
ghost use Rattle.std.specs.Prelude.{◌≡◌, ◌<◌};
ghost use Rattle.meaning.specs.Limits.{terms, records};
ghost use Rattle.meaning.specs.Left.{home_left};
ghost use Rattle.fewest.specs.Pairs.{pairs};
ghost use Rattle.fewest.specs.Work.{goal_of, Least};

use crate::Goal;
use crate::links::Role;
use crate::table::{NUMBERS, number};
use crate::task::Ahead;
use records::NONE;

// At the rule's own finish nothing is left where the goal allows the term. Elsewhere it is NONE, as the table itself has it.
fn home(goal: Goal, u: usize) -> usize
    ensures { result ≡ home_left (goal_of goal) u }
{
    match goal {
        Goal::End(end) => { if u == end { 0 } else { NONE } }
        Goal::Anywhere => 0,
    }
}

// The least number that may follow once record r's expression is finished at u. The second of a sequence and the operand of a
// star are the record before it: so the number that is read is that of the second, or of the round once more.
pub fn left(ahead: &Ahead, numbers: &[u8; NUMBERS], r: usize, u: usize) -> usize
    requires { (r < records) × (u < terms) }
    ensures { Least ahead.now.links.now.up ahead.now.links.now.role (goal_of ahead.now.goal) (pairs numbers.now) r u result }
{
    let mut best = NONE;
    let mut at = r;
    loop {
        let above = ahead.links.above(at);
        match ahead.links.role(at) {
            Role::Whole => return best.min(home(ahead.goal, u)),
            Role::Test => return 0,
            Role::First => return best.min(number(numbers, above - 1, u)),
            Role::Round => {
                best = best.min(number(numbers, above - 1, u));
                at = above;
            }
        }
    }
}
