// The path shown into the front of a lent room, and the numbers out of their byte pairs into a lent table.
ghost use Rattle.std.specs.Prelude.{◌≡◌, ◌*◌, ◌<◌, ◌≤◌, length};
ghost use Rattle.meaning.specs.Limits.{terms, records};
ghost use Rattle.fewest.specs.Pairs.{pairs};
ghost use Rattle.fewest.specs.Tasks.{ThreadsOf};
ghost use Rattle.calls.specs.Written.{Roomy, WalkableFor, WrittenFor, row_of, front};

use crate::room::Lent;
use fewest::table::{NUMBERS, number};
use fewest::task::Task;
use path::next_step;
use records::{RECORDS, TERMS};

// The path shown from a start, of so many steps, into the front of a room. The site's threads are in scratch.
pub fn write<C: Lent>(
    task: &Task,
    scratch: &[u8],
    numbers: &[u8; NUMBERS],
    start: usize,
    steps: usize,
    room: &mut [C],
)
    requires { ThreadsOf task.now scratch.now × (start < terms) × Roomy C.form steps (C.entries room.old) × WalkableFor task.now numbers.now start steps }
    ensures { WrittenFor C.form task.now numbers.now start steps (C.entries room.old) (C.entries room.new) }
{
    let mut after = None;
    let mut term = start;
    for i in 0..steps {
        let Some(x) = next_step(task, scratch, numbers, after, term, steps - i - 1) else {
            return;
        };
        C::put_step(room, i, x);
        after = Some(x.by);
        term = x.to;
    }
}

// Row r of the numbers into the front of a row.
fn copy_row(bytes: &[u8; NUMBERS], r: usize, row: &mut [u16])
    requires { (r < records) × (terms ≤ length row.old) }
    ensures { row.new ≡ front (row_of (pairs bytes.now) r) row.old }
{
    // `as`: two bytes are below 65,536, and try_from would have an error that never comes.
    for t in 0..TERMS {
        row[t] = number(bytes, r, t) as u16;
    }
}

// The numbers out of their byte pairs, row by row.
pub fn copy_back(bytes: &[u8; NUMBERS], numbers: &mut [u16])
    requires { length numbers.old ≡ records * terms }
    ensures { numbers.new ≡ pairs bytes.now }
{
    for r in 0..RECORDS {
        let at = r * TERMS;
        copy_row(bytes, r, &mut numbers[at..]);
    }
}
