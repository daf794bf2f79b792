// Both tables for a goal and a start: first the numbers, with the byte table as scratch, then the questions, whose tests the
// numbers tell; and the ends, where a table of ends is lent.
ghost use Rattle.std.specs.Prelude.{◌<◌, length};
ghost use Rattle.meaning.specs.Limits.{terms};
ghost use Rattle.calls.specs.Inner.{EvaluatedFor};

use asked::spread::ask;
use fewest::table::{ENTRIES, NUMBERS};
use fewest::task::Task;
use levels::fill::fill;

pub fn evaluate(
    task: &Task,
    start: usize,
    asked: &mut [u8; ENTRIES],
    numbers: &mut [u8; NUMBERS],
    ends: &mut [u8],
)
    requires { (0 < task.now.rule.count) × (start < terms) }
    ensures { EvaluatedFor task.now start (length ends.old) asked.new numbers.new ends.new }
{
    fill(task, asked, numbers);
    ask(task, numbers, start, asked, ends);
}
