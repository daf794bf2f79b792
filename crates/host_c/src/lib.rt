// The calls of `host` under the names that C calls, with its clauses: the static library. Nothing else is here.
#![tactic(auto)]

ghost use Rattle.host.specs.ForC.{DecidedForC, EndedForC, StartedForC, LimitedForC};

use host::layout::{CeilingForC, DecisionForC, EndsForC, StartsForC};

// Whether the rule relates start to end, with the figure, both tables filled and the path shown in the room.
#[unsafe(no_mangle)]
pub extern "C" fn carolivy_decide(
    site: &[u8],
    rule: &[u8],
    start: u32,
    end: u32,
    asked: &mut [u8],
    numbers: &mut [u8],
    room: &mut [u8],
) -> DecisionForC
    ensures { DecidedForC site.now rule.now start end asked.old numbers.old room.old asked.new numbers.new room.new result }
{
    host::carolivy_decide(site, rule, start, end, asked, numbers, room)
}

// The ends of a start, with the figure and both tables.
#[unsafe(no_mangle)]
pub extern "C" fn carolivy_list_ends(
    site: &[u8],
    rule: &[u8],
    start: u32,
    asked: &mut [u8],
    numbers: &mut [u8],
    third: &mut [u8],
) -> EndsForC
    ensures { EndedForC site.now rule.now start asked.old numbers.old third.old asked.new numbers.new third.new result }
{
    host::carolivy_list_ends(site, rule, start, asked, numbers, third)
}

// The starts of an end, with the number table.
#[unsafe(no_mangle)]
pub extern "C" fn carolivy_list_starts(
    site: &[u8],
    rule: &[u8],
    end: u32,
    asked: &mut [u8],
    numbers: &mut [u8],
    third: &mut [u8],
) -> StartsForC
    ensures { StartedForC site.now rule.now end asked.old numbers.old third.old asked.new numbers.new third.new result }
{
    host::carolivy_list_starts(site, rule, end, asked, numbers, third)
}

// The most that a figure can be for this site and rule.
#[unsafe(no_mangle)]
pub extern "C" fn carolivy_ceiling_of(site: &[u8], rule: &[u8]) -> CeilingForC
    ensures { LimitedForC site.now rule.now result }
{
    host::carolivy_ceiling_of(site, rule)
}
