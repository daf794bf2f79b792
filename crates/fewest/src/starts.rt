// The starts, read off the number table: a term is one where the rule's own row has a number.
ghost use Rattle.std.specs.Prelude.{◌≡◌, ◌<◌};
ghost use Rattle.meaning.specs.Limits.{terms, records};
ghost use Rattle.fewest.specs.Pairs.{pairs};
ghost use Rattle.fewest.specs.Told.{bit_of, Told};

use crate::table::{NUMBERS, number};
use records::{NONE, TERMS};

// 1 for a number of steps, 0 for none.
#[tactic(auto, unfolding(crate::specs::Told::bit_of, meaning::specs::Limits::none))]
fn bit(v: usize) -> u8
    ensures { result ≡ bit_of v }
{
    u8::from(v < NONE)
}

// 1 at each term at which row r has a number, 0 elsewhere.
#[tactic(auto, unfolding(meaning::specs::Limits::terms))]
pub fn tell(numbers: &[u8; NUMBERS], r: usize, third: &mut [u8; TERMS])
    requires { r < records }
    ensures { Told (pairs numbers.now) r terms third.new }
{
    for t in 0..TERMS {
        third[t] = bit(number(numbers, r, t));
    }
}
