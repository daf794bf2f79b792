// All ends of a start: both tables where the rule's own body may finish anywhere, and the ends told in bits.
ghost use Rattle.std.specs.Prelude.{length};
ghost use Rattle.calls.specs.Inner.{EndsFound};
ghost use Rattle.calls.specs.Promise.{as_words, as_bytes, Ended};

use crate::Found;
use crate::admit::admit;
use crate::evaluate::evaluate;
use crate::lengths::{WRONG_LENGTH, fit};
use crate::query::Query;
use crate::write::copy_back;
use asked::count::count;
use fewest::Goal;
use fewest::table::{ENTRIES, NUMBERS};
use records::{Refusal, TERMS};

// The ends for a query that is in order.
fn list(
    query: &Query,
    asked: &mut [u8; ENTRIES],
    numbers: &mut [u8; NUMBERS],
    third: &mut [u8; TERMS],
) -> Found
    ensures { EndsFound query.now (length third.old) asked.new numbers.new third.new result }
{
    let links = query.links();
    let task = query.task(&links, Goal::Anywhere);
    evaluate(&task, query.start, asked, numbers, third);
    Found {
        ends: count(third),
        figure: count(asked),
    }
}

// The ends of a start, with the figure and both tables, on tables of bytes.
pub fn ends_bytes(
    site: &[u8],
    rule: &[u8],
    start: u32,
    asked: &mut [u8],
    numbers: &mut [u8],
    third: &mut [u8],
) -> Result<Found, Refusal>
    ensures { Ended as_bytes site.now rule.now start asked.old numbers.old third.old asked.new numbers.new third.new result }
{
    if !fit(asked.len(), numbers.len(), third.len(), NUMBERS, TERMS) {
        return Err(WRONG_LENGTH);
    }
    let query = admit(site, rule, start, 0)?;
    Ok(list(
        &query,
        asked.as_mut_array().unwrap(),
        numbers.as_mut_array().unwrap(),
        third.as_mut_array().unwrap(),
    ))
}

// The ends of a start, with the figure and both tables, on tables of numbers: the same on a local table of bytes, copied out
// where there is an answer.
// Two functions over one `list`: C calls the one on bytes, and here the table is a local one, so that only this copies.
pub fn ends(
    site: &[u8],
    rule: &[u8],
    start: u32,
    asked: &mut [u8],
    numbers: &mut [u16],
    third: &mut [u8],
) -> Result<Found, Refusal>
    ensures { Ended as_words site.now rule.now start asked.old numbers.old third.old asked.new numbers.new third.new result }
{
    if !fit(asked.len(), numbers.len(), third.len(), ENTRIES, TERMS) {
        return Err(WRONG_LENGTH);
    }
    let query = admit(site, rule, start, 0)?;
    let mut bytes = [0; NUMBERS];
    let found = list(
        &query,
        asked.as_mut_array().unwrap(),
        &mut bytes,
        third.as_mut_array().unwrap(),
    );
    copy_back(&bytes, numbers);
    Ok(found)
}
