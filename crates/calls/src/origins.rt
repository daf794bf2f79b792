// All starts of an end: the number table to that end, and the row of the whole rule, told in bits.
ghost use Rattle.calls.specs.Inner.{StartsFound};
ghost use Rattle.calls.specs.Promise.{as_words, as_bytes, Started};

use crate::admit::admit;
use crate::lengths::{WRONG_LENGTH, fit};
use crate::query::Query;
use crate::write::copy_back;
use asked::count::count;
use asked::spread::clear;
use fewest::Goal;
use fewest::starts::tell;
use fewest::table::{ENTRIES, NUMBERS};
use levels::fill::fill;
use records::{Refusal, TERMS};

// The starts for a query that is in order, and how many. The byte table is scratch, and cleared in the end.
fn list(
    query: &Query,
    asked: &mut [u8; ENTRIES],
    numbers: &mut [u8; NUMBERS],
    third: &mut [u8; TERMS],
) -> usize
    ensures { StartsFound query.now asked.new numbers.new third.new result }
{
    let links = query.links();
    let task = query.task(&links, Goal::End(query.end));
    fill(&task, asked, numbers);
    tell(numbers, task.rule.count - 1, third);
    clear(asked);
    count(third)
}

// The starts of an end, on tables of bytes.
pub fn starts_bytes(
    site: &[u8],
    rule: &[u8],
    end: u32,
    asked: &mut [u8],
    numbers: &mut [u8],
    third: &mut [u8],
) -> Result<usize, Refusal>
    ensures { Started as_bytes site.now rule.now end asked.old numbers.old third.old asked.new numbers.new third.new result }
{
    if !fit(asked.len(), numbers.len(), third.len(), NUMBERS, TERMS) {
        return Err(WRONG_LENGTH);
    }
    let query = admit(site, rule, 0, end)?;
    Ok(list(
        &query,
        asked.as_mut_array().unwrap(),
        numbers.as_mut_array().unwrap(),
        third.as_mut_array().unwrap(),
    ))
}

// The starts of an end, on tables of numbers: the same on a local table of bytes, copied out where there is an answer.
// Two functions over one `list`: C calls the one on bytes, and here the table is a local one, so that only this copies.
pub fn starts(
    site: &[u8],
    rule: &[u8],
    end: u32,
    asked: &mut [u8],
    numbers: &mut [u16],
    third: &mut [u8],
) -> Result<usize, Refusal>
    ensures { Started as_words site.now rule.now end asked.old numbers.old third.old asked.new numbers.new third.new result }
{
    if !fit(asked.len(), numbers.len(), third.len(), ENTRIES, TERMS) {
        return Err(WRONG_LENGTH);
    }
    let query = admit(site, rule, 0, end)?;
    let mut bytes = [0; NUMBERS];
    let found = list(
        &query,
        asked.as_mut_array().unwrap(),
        &mut bytes,
        third.as_mut_array().unwrap(),
    );
    copy_back(&bytes, numbers);
    Ok(found)
}
