// Looks that store nothing, before the sweeps that do: whole rows against each other, many bytes at once, and the triples of a step
// against one row that bounds what is left after it. Where such a look finds nothing lower, a sweep has nothing to do.
ghost use Rattle.std.specs.Prelude.{◌≡◌, true, false, ◌<◌, IfSome};
ghost use Rattle.meaning.specs.Limits.{records};
ghost use Rattle.fewest.specs.Pairs.{pairs};
ghost use Rattle.fewest.specs.Work.{goal_of, Tests, Axial};
ghost use Rattle.fewest.specs.Rows.{RowBelow, HomeBelow, Bounds, Keeps, KeepsAll, StepQuiet, StarQuiet};

use crate::Goal;
use crate::links::Role;
use crate::look::{Parts, allows, move_at, parts_of};
use crate::table::{NUMBERS, number};
use crate::task::{Ahead, Site};
use records::{Axis, Label, TERMS};

// The bytes of a row.
const ROW: usize = TERMS + TERMS;

// Whether a byte of row b is above the one of row a at its place; if none is, no number is.
pub fn above(numbers: &[u8; NUMBERS], b: usize, a: usize) -> bool
    requires { (b < records) × (a < records) }
    ensures { result ≡ false → RowBelow b a (pairs numbers.now) }
{
    let at = b * ROW;
    let from = a * ROW;
    let mut most: u8 = 0;
    for i in 0..ROW {
        most = most.max(numbers[at + i].saturating_sub(numbers[from + i]));
    }
    0 < most
}

// Whether row b is nowhere above what is left at the rule's own finish, as one entry tells.
fn below_home(goal: Goal, numbers: &[u8; NUMBERS], b: usize) -> bool
    requires { b < records }
    ensures { result ≡ true → HomeBelow (goal_of goal) b (pairs numbers.now) }
{
    match goal {
        Goal::End(end) => TERMS <= end || number(numbers, b, end) == 0,
        Goal::Anywhere => false,
    }
}

// Whether row b is nowhere above what may follow record r's expression, as whole rows tell.
fn bounds(ahead: &Ahead, numbers: &[u8; NUMBERS], b: usize, r: usize) -> bool
    requires { (b < records) × (r < records) }
    ensures { result ≡ true → Bounds ahead.now.links.now.up ahead.now.links.now.role (goal_of ahead.now.goal) b r (pairs numbers.now) }
{
    let mut at = r;
    loop {
        let higher = ahead.links.above(at);
        match ahead.links.role(at) {
            Role::Whole => return below_home(ahead.goal, numbers, b),
            Role::Test => return false,
            Role::First => return !above(numbers, b, higher - 1),
            Role::Round => {
                if above(numbers, b, higher - 1) {
                    return false;
                }
                at = higher;
            }
        }
    }
}

// The record whose row is likely to tell what is left after record r: the second of the sequence, or the star; none after the
// whole rule.
fn bound_of(ahead: &Ahead, r: usize) -> Option<usize>
    requires { r < records }
    ensures { IfSome result (λ b. b < records) }
{
    let higher = ahead.links.above(r);
    match ahead.links.role(r) {
        Role::Whole => None,
        Role::First => Some(higher - 1),
        Role::Test | Role::Round => Some(higher),
    }
}

// Whether triple k lowers no entry of record r, if row b tells what is left.
fn keeps(
    site: &Site,
    k: usize,
    parts: Parts,
    label: Label,
    numbers: &[u8; NUMBERS],
    b: usize,
    r: usize,
) -> bool
    requires { (k < site.now.triples) × (b < records) × (r < records) × Tests label r × Axial parts }
    ensures { result ≡ true → Keeps site.now.bytes.now k parts label b r (pairs numbers.now) }
{
    let m = move_at(site, k, parts);
    number(numbers, r, m.from) <= number(numbers, b, m.to) + 1
        || !allows(numbers, label, r, m.middle)
}

// Whether no triple lowers an entry of the step of record r, if row b tells what is left.
fn keep_all(
    site: &Site,
    axis: Axis,
    label: Label,
    numbers: &[u8; NUMBERS],
    b: usize,
    r: usize,
) -> bool
    requires { (b < records) × (r < records) × Tests label r }
    ensures { result ≡ true → KeepsAll site.now.bytes.now site.now.triples axis label b r (pairs numbers.now) }
{
    let parts = parts_of(axis);
    for k in 0..site.triples {
        if !keeps(site, k, parts, label, numbers, b, r) {
            return false;
        }
    }
    true
}

// Whether nothing that the step of record r offers is lower, as far as one row tells what is left.
pub fn step_quiet(
    site: &Site,
    axis: Axis,
    label: Label,
    ahead: &Ahead,
    numbers: &[u8; NUMBERS],
    r: usize,
) -> bool
    requires { (r < records) × Tests label r }
    ensures { result ≡ true → StepQuiet site.now.bytes.now site.now.triples axis label ahead.now.links.now.up ahead.now.links.now.role (goal_of ahead.now.goal) r (pairs numbers.now) }
{
    let Some(b) = bound_of(ahead, r) else {
        return false;
    };
    bounds(ahead, numbers, b, r) && keep_all(site, axis, label, numbers, b, r)
}

// Whether nothing that the star of record r offers is lower, neither its round nor passing empty, as whole rows tell.
pub fn star_quiet(ahead: &Ahead, numbers: &[u8; NUMBERS], r: usize) -> bool
    requires { (r < records) × (0 < r) }
    ensures { result ≡ true → StarQuiet ahead.now.links.now.up ahead.now.links.now.role (goal_of ahead.now.goal) r (pairs numbers.now) }
{
    !above(numbers, r, r - 1) && bounds(ahead, numbers, r, r)
}
