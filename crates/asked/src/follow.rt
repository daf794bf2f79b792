// What follows where a record's expression is done: up the links, each record that is asked next, as a set, and whether the rule ends.
ghost use Rattle.std.specs.Prelude.{◌<◌};
ghost use Rattle.meaning.specs.Limits.{records};
ghost use Rattle.asked.specs.Seek.{Onward};

use crate::words::only;
use fewest::links::Role;
use fewest::task::Ahead;

// The records that are asked next, and whether the whole rule is done.
#[derive(Clone, Copy)]
pub struct After {
    pub set: u32,
    pub home: bool,
}

// What follows where record r's expression is done: the second of a sequence, or a star's operand once more, is the record before it.
#[tactic(auto, unfolding(meaning::specs::Limits::records))]
pub fn follow(ahead: &Ahead, r: usize) -> After
    requires { r < records }
    ensures { Onward ahead.now.links.now.up ahead.now.links.now.role r result }
{
    let mut set = 0;
    let mut at = r;
    // No iterator: three of the four roles end the walk, each in its own way, so that a fold would keep this match and a flag.
    loop {
        let above = ahead.links.above(at);
        match ahead.links.role(at) {
            Role::Whole => return After { set, home: true },
            Role::Test => return After { set, home: false },
            Role::First => {
                return After {
                    set: set | only(above - 1),
                    home: false,
                };
            }
            Role::Round => {
                set |= only(above - 1);
                at = above;
            }
        }
    }
}
