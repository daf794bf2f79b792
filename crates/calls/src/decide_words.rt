// The same decision where the numbers and the room are lent as numbers: the work is done on byte pairs and handed back.
ghost use Rattle.calls.specs.Promise.{as_words, Decided};

use crate::Answer;
use crate::admit::admit;
use crate::decide::answer;
use crate::lengths::{WRONG_LENGTH, fit};
use crate::write::copy_back;
use fewest::table::{ENTRIES, NUMBERS};
use records::Refusal;

// Whether the rule relates start to end, with the figure, both tables filled and the path shown in the room, of any length.
// Two functions over one `answer`: C calls the one on bytes, and here the table is a local one, so that only this copies.
pub fn decide(
    site: &[u8],
    rule: &[u8],
    start: u32,
    end: u32,
    asked: &mut [u8],
    numbers: &mut [u16],
    room: &mut [u16],
) -> Result<Answer, Refusal>
    ensures { Decided as_words site.now rule.now start end asked.old numbers.old room.old asked.new numbers.new room.new result }
{
    if !fit(asked.len(), numbers.len(), room.len(), ENTRIES, room.len()) {
        return Err(WRONG_LENGTH);
    }
    let query = admit(site, rule, start, end)?;
    let mut bytes = [0; NUMBERS];
    let answer = answer(&query, asked.as_mut_array().unwrap(), &mut bytes, room);
    copy_back(&bytes, numbers);
    answer
}
