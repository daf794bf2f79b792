// The calls for C: numbers and byte slices in, one struct out. The manual is include/carolivy.h, the layout docs/HOST.md.
// Nothing is decided here: each call hands on to its namesake in `calls`, and lays the outcome out. The crate `host_c` exports them.
#![tactic(auto)]

ghost use Rattle.host.specs.ForC.{DecidedForC, EndedForC, StartedForC, LimitedForC};

use crate::layout::{
    CeilingForC, DecisionForC, EndsForC, StartsForC, lay_ceiling, lay_decision, lay_ends,
    lay_starts,
};
use calls::ceiling::ceiling;
use calls::decide::decide_bytes;
use calls::lists::ends_bytes;
use calls::origins::starts_bytes;

pub mod layout; // layout.rt: the structs, and an outcome laid out in one

// Whether the rule relates start to end, with the figure, both tables filled and the path shown in the room.
pub fn carolivy_decide(
    site: &[u8],
    rule: &[u8],
    start: u32,
    end: u32,
    asked: &mut [u8],
    numbers: &mut [u8],
    room: &mut [u8],
) -> DecisionForC
    ensures { DecidedForC site.now rule.now start end asked.old numbers.old room.old asked.new numbers.new room.new result }
{
    lay_decision(decide_bytes(site, rule, start, end, asked, numbers, room))
}

// The ends of a start, with the figure and both tables.
pub fn carolivy_list_ends(
    site: &[u8],
    rule: &[u8],
    start: u32,
    asked: &mut [u8],
    numbers: &mut [u8],
    third: &mut [u8],
) -> EndsForC
    ensures { EndedForC site.now rule.now start asked.old numbers.old third.old asked.new numbers.new third.new result }
{
    lay_ends(ends_bytes(site, rule, start, asked, numbers, third))
}

// The starts of an end, with the number table.
pub fn carolivy_list_starts(
    site: &[u8],
    rule: &[u8],
    end: u32,
    asked: &mut [u8],
    numbers: &mut [u8],
    third: &mut [u8],
) -> StartsForC
    ensures { StartedForC site.now rule.now end asked.old numbers.old third.old asked.new numbers.new third.new result }
{
    lay_starts(starts_bytes(site, rule, end, asked, numbers, third))
}

// The most that a figure can be for this site and rule.
pub fn carolivy_ceiling_of(site: &[u8], rule: &[u8]) -> CeilingForC
    ensures { LimitedForC site.now rule.now result }
{
    lay_ceiling(ceiling(site, rule))
}
