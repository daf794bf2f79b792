// Deciding one pair: the lengths and the admission, the numbers, the path, the questions, then the answer. The work is done on bytes,
// and the room is lent as bytes or as numbers.
ghost use Rattle.std.specs.Prelude.{◌≡◌};
ghost use Rattle.fewest.specs.Sweep.{sum};
ghost use Rattle.fewest.specs.Tasks.{ThreadsOf};
ghost use Rattle.asked.specs.Seek.{Bits};
ghost use Rattle.calls.specs.Promise.{as_bytes, RoomFits, Decided};
ghost use Rattle.calls.specs.Inner.{TaskOf, NumberedFor, DisplayedFor, Answered, verdict};
ghost use Rattle.calls.specs.Written.{Holds};

use crate::Answer;
use crate::admit::admit;
use crate::lengths::{WRONG_LENGTH, fit};
use crate::query::Query;
use crate::room::Lent;
use crate::write::write;
use asked::count::count;
use asked::spread::ask;
use fewest::Goal;
use fewest::table::{ENTRIES, NUMBERS, number};
use fewest::task::Task;
use levels::fill::fill;
use records::{NONE, Reason, Refusal};

// A room of bytes is one of so many steps, of six bytes each.
pub const ROOM_STEPS: usize = 1024;

const ROOM_BYTES: usize = 6 * ROOM_STEPS;

// The steps at the start, and the path into the room where it holds so many, by the threads in the byte table, which is scratch
// until the questions are asked.
fn show<C: Lent>(
    query: &Query,
    task: &Task,
    scratch: &[u8],
    numbers: &[u8; NUMBERS],
    most: usize,
    room: &mut [C],
) -> usize
    requires { TaskOf query.now (Goal.End query.now.end) task.now × NumberedFor task.now numbers.now × ThreadsOf task.now scratch.now × Holds C.form most (C.entries room.old) }
    ensures { DisplayedFor C.form task.now numbers.now query.now.start most (C.entries room.old) (C.entries room.new) result }
{
    // NONE is the table's own number for no way.
    let steps = number(numbers, query.count - 1, query.start);
    if steps != NONE && steps <= most {
        write(task, scratch, numbers, query.start, steps, room);
    }
    steps
}

// The decision by the steps, by the most that the room holds and by the figure, which is counted.
// The steps are the number table's entry, where document 01 stores 65,535 for none; what is promised (`verdict`) takes that number.
pub fn finish(asked: &[u8], steps: usize, most: usize) -> Result<Answer, Refusal>
    requires { Bits asked.now }
    ensures { result ≡ verdict steps most (sum asked.now) }
{
    let figure = count(asked);
    if steps == NONE {
        return Ok(Answer {
            yes: false,
            figure,
            steps: 0,
        });
    }
    if most < steps {
        return Err(Refusal {
            reason: Reason::Room,
            place: steps,
        });
    }
    Ok(Answer {
        yes: true,
        figure,
        steps,
    })
}

// A query that is in order is answered: the numbers, the path by them, then the questions, with no table of ends.
pub(crate) fn answer<C: Lent>(
    query: &Query,
    asked: &mut [u8; ENTRIES],
    numbers: &mut [u8; NUMBERS],
    room: &mut [C],
) -> Result<Answer, Refusal>
    requires { RoomFits C.form (C.entries room.old) }
    ensures { Answered C.form query.now (C.entries room.old) asked.new numbers.new (C.entries room.new) result }
{
    let links = query.links();
    let task = query.task(&links, Goal::End(query.end));
    let most = C::steps(room);
    fill(&task, asked, numbers);
    let steps = show(query, &task, asked, numbers, most, room);
    ask(&task, numbers, query.start, asked, &mut []);
    finish(asked, steps, most)
}

// Whether the rule relates start to end, with the figure, both tables filled and the path shown in the room, all lent as bytes.
pub fn decide_bytes(
    site: &[u8],
    rule: &[u8],
    start: u32,
    end: u32,
    asked: &mut [u8],
    numbers: &mut [u8],
    room: &mut [u8],
) -> Result<Answer, Refusal>
    ensures { Decided as_bytes site.now rule.now start end asked.old numbers.old room.old asked.new numbers.new room.new result }
{
    if !fit(asked.len(), numbers.len(), room.len(), NUMBERS, ROOM_BYTES) {
        return Err(WRONG_LENGTH);
    }
    let query = admit(site, rule, start, end)?;
    answer(
        &query,
        asked.as_mut_array().unwrap(),
        numbers.as_mut_array().unwrap(),
        room,
    )
}
