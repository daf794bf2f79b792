// The questions of a rule: both tables are cleared, the whole rule's question is marked, and the chase goes on until none waits.
ghost use Rattle.std.specs.Prelude.{◌≡◌, ◌*◌, ◌<◌, length, replicate};
ghost use Rattle.meaning.specs.Limits.{terms, records};
ghost use Rattle.fewest.specs.Kept.{Kept};
ghost use Rattle.fewest.specs.Tasks.{ThreadsOf};
ghost use Rattle.asked.specs.Mark.{marks};
ghost use Rattle.asked.specs.Serve.{markeds};
ghost use Rattle.asked.specs.Task.{MarkedIn};

use crate::chase::chase;
use crate::mark::{MARKS, mark_on};
use crate::narrow::{clear_rows, narrow};
use crate::words::only;
use fewest::table::{ENTRIES, NUMBERS};
use fewest::task::Task;
use records::TERMS;

// The first row of those that the words take.
const WORDS: usize = MARKS / TERMS;

// The byte table is filled with 0, row by row.
pub fn clear(asked: &mut [u8; ENTRIES])
    ensures { asked.new ≡ replicate (records * terms) 0 }
{
    clear_rows(asked, 0)
}

// No question is marked or waits; the threads are kept.
fn free(asked: &mut [u8; ENTRIES])
    ensures { (markeds asked.new ≡ replicate (records * terms) 0) × Kept asked.old asked.new }
{
    clear_rows(asked, WORDS)
}

// The questions that the whole rule asks at the start, and the ends that it leads to, where a table of ends is lent.
pub fn ask(
    task: &Task,
    numbers: &[u8; NUMBERS],
    start: usize,
    asked: &mut [u8; ENTRIES],
    ends: &mut [u8],
)
    requires { (0 < task.now.rule.count) × (start < terms) × ThreadsOf task.now asked.old }
    ensures { MarkedIn task.now numbers.now start (length ends.old) (marks asked.new ends.new) }
{
    free(asked);
    ends.fill(0);
    let mut tail = 0;
    mark_on(asked, &mut tail, only(task.rule.count - 1), start);
    chase(task, numbers, asked, ends, tail);
    narrow(asked, task.rule.count);
}
