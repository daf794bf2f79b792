// The whole number table: every entry none, then by levels, then sweeps until one changes nothing. The levels are quick and are not
// trusted; what they leave is settled.
ghost use Rattle.std.specs.Prelude.{◌*◌, replicate};
ghost use Rattle.meaning.specs.Limits.{terms, records, none};
ghost use Rattle.fewest.specs.Pairs.{pairs};
ghost use Rattle.fewest.specs.Tasks.{SettledFor, ThreadsOf};

use crate::search::levels;
use fewest::sweep::{clear, settle};
use fewest::table::{ENTRIES, NUMBERS};
use fewest::task::Task;

// The number table: every entry none, then sweeps until one changes nothing. The byte table is lent as scratch, and has the
// threads afterwards.
pub fn fill(task: &Task, scratch: &mut [u8; ENTRIES], numbers: &mut [u8; NUMBERS])
    ensures { SettledFor task.now (replicate (records * terms) none) (pairs numbers.new) × ThreadsOf task.now scratch.new }
{
    clear(numbers);
    levels(task, scratch, numbers);
    settle(task, scratch, numbers)
}
