// A rule, read from its records: kinds 1 to 6 in postfix order, refusals 7 to 13.
// A record's length and its decoding stand side by side; whoever reads a rule reads it through them.
ghost use Rattle.std.specs.Prelude.{◌≡◌, ◌+◌, ◌<◌, ◌≢◌, get_or};
ghost use Rattle.meaning.specs.Limits.{records};
ghost use Rattle.meaning.specs.Expression.{operands};
ghost use Rattle.records.specs.Rules.{rec_of, length_of, record_at, axis_coded, axis_at, term_of, judged, rule_record_at, starts_of, records_of, Front, CheckedRule};
ghost use Rattle.records.specs.First.{First, Ends, taken, Inside};

use crate::bytes::{BASE, byte_after, byte_at};
use crate::{Axis, Label, RECORDS, Reason, Record, Refusal, Step, TERMS};

const LAST_AXIS: usize = 6;

// A rule that is read: how many records it has, and the places of its records in front, 0 behind.
// Records are so short that a place is a byte.
#[derive(Clone, Copy)]
pub struct RuleRead {
    pub count: usize,
    pub starts: [u8; RECORDS],
}

// How many bytes a record of this kind has, its kind included; 0 where there is no such kind. Each kind has an arm of its own: so
// the compiled rule reader takes fewer instructions than with kinds of one length in one arm.
// Kinds stay document 01's own numbers, read once; a length is no Option, since what follows a record is worked out with it.
#[tactic(auto, unfolding(crate::specs::Rules::length_of))]
fn length_of(kind: usize) -> usize
    ensures { result ≡ length_of kind }
{
    match kind {
        1 => 2,
        2 => 4,
        3 => 2,
        4 => 1,
        5 => 1,
        6 => 1,
        _ => 0,
    }
}

// The axis with this number, none for self; the last one for a number that no axis has.
#[tactic(auto, unfolding(crate::specs::Rules::axis_coded))]
pub fn axis_coded(number: usize) -> Option<Axis>
    ensures { result ≡ axis_coded number }
{
    match number {
        0 => None,
        1 => Some(Axis::Next),
        2 => Some(Axis::NextInverse),
        3 => Some(Axis::Edge),
        4 => Some(Axis::EdgeInverse),
        5 => Some(Axis::Node),
        _ => Some(Axis::NodeInverse),
    }
}

// The record whose kind stands at this place of a rule that has been checked. Of any other place it is some record.
#[tactic(auto, unfolding(crate::specs::Rules::record_at, crate::specs::Bytes::number16))]
fn record_at(rule: &[u8], at: usize) -> Record
    ensures { result ≡ record_at rule.now at }
{
    let kind = byte_after(rule, at, 0);
    let axis = axis_coded(byte_after(rule, at, 1));
    match kind {
        1 => Record::Step(Step {
            axis,
            label: Label::Any,
        }),
        2 => Record::Step(Step {
            axis,
            label: Label::Term(byte_after(rule, at, 2) * BASE + byte_after(rule, at, 3)),
        }),
        3 => Record::Step(Step {
            axis,
            label: Label::Test,
        }),
        4 => Record::Sequence,
        5 => Record::Choice,
        _ => Record::Star,
    }
}

// The record with this number, by the places of the rule's records.
#[tactic(auto, unfolding(meaning::specs::Limits::records))]
pub fn record_of(rule: &[u8], starts: &[u8; RECORDS], r: usize) -> Record
    requires { r < records }
    ensures { result ≡ record_at rule.now (get_or starts.now r 0) }
{
    record_at(rule, byte_at(starts, r))
}

// The number of the axis of the record at this place; 0 where its kind has none. A refusal goes by it, before there is an axis.
#[tactic(auto, unfolding(crate::specs::Rules::axis_at))]
pub fn axis_at(rule: &[u8], at: usize) -> usize
    ensures { result ≡ axis_at rule.now at }
{
    match byte_after(rule, at, 0) {
        1..=3 => byte_after(rule, at, 1),
        _ => 0,
    }
}

// The named term of a step; 0 for other records. A refusal goes by the number, as that of an axis does.
fn term_of(rec: Record) -> usize
    ensures { result ≡ term_of rec }
{
    match rec {
        Record::Step(
            Step {
                label: Label::Term(term),
                ..
            },
        ) => term,
        _ => 0,
    }
}

// How many of the expressions before it a record takes.
pub fn operands_of(rec: Record) -> usize
    ensures { result ≡ operands (rec_of rec) }
{
    match rec {
        Record::Sequence | Record::Choice => 2,
        Record::Star => 1,
        Record::Step(
            Step {
                label: Label::Test,
                ..
            },
        ) => 1,
        Record::Step(_) => 0,
    }
}

// A record that is whole, its axis having this number, with the place of the next, or why it is refused.
#[tactic(auto, unfolding(crate::specs::Rules::judged, meaning::specs::Limits::terms))]
fn judge(
    rec: Record,
    axis: usize,
    at: usize,
    next: usize,
    height: usize,
) -> Result<Option<(Record, usize)>, Refusal>
    ensures { result ≡ judged rec axis at next height }
{
    let term = term_of(rec);
    let taken = operands_of(rec);
    if LAST_AXIS < axis {
        return Err(Reason::RuleAxis.at(at));
    }
    if TERMS <= term {
        return Err(Reason::RuleTerm.at(at));
    }
    if height < taken {
        return Err(Reason::TooFew.at(at));
    }
    Ok(Some((rec, next)))
}

// What stands at a place of a rule, `count` records and `height` expressions being before it.
#[tactic(auto, unfolding(crate::specs::Rules::rule_record_at, meaning::specs::Limits::records))]
pub fn rule_record(
    rule: &[u8],
    at: usize,
    count: usize,
    height: usize,
) -> Result<Option<(Record, usize)>, Refusal>
    ensures { result ≡ rule_record_at rule.now at count height }
{
    let Some(kind) = rule.get(at) else {
        return Ok(None);
    };
    if RECORDS <= count {
        return Err(Reason::RuleLong.at(at));
    }
    let length = length_of(usize::from(*kind));
    if length == 0 {
        return Err(Reason::RuleKind.at(at));
    }
    if rule.len() - at < length {
        return Err(Reason::RuleCut.at(at));
    }
    judge(
        record_at(rule, at),
        axis_at(rule, at),
        at,
        at + length,
        height,
    )
}

// Checks a rule, record by record.
pub fn check_rule(rule: &[u8]) -> Result<RuleRead, Refusal>
    ensures { CheckedRule rule.now result }
{
    let mut starts = [0; RECORDS];
    let mut at = 0;
    let mut count = 0;
    let mut height = 0;
    loop {
        let Some((record, next)) = rule_record(rule, at, count, height)? else {
            break;
        };
        starts[count] = at as u8;
        at = next;
        count += 1;
        height = height - operands_of(record) + 1;
    }
    if height != 1 {
        return Err(Reason::NotOne.at(rule.len()));
    }
    Ok(RuleRead { count, starts })
}

// The record that stands inside all those, from `last` down, which take one operand: it ends just before the least of them.
// A `for` over a reversed range would need an end, and a value for reaching it, which a checked rule never does.
fn inner_record(rule: &[u8], starts: &[u8; RECORDS], last: usize) -> usize
    requires front { Front (starts_of rule.now) starts.now }
    requires ends { Ends (records_of rule.now) last }
    ensures { Inside (records_of rule.now) last result × (taken (records_of rule.now) result ≢ 1) }
{
    let mut r = last;
    while operands_of(record_of(rule, starts, r)) == 1 {
        r -= 1;
    }
    r
}

// The first record of the expression whose last record is `last`, found through its first operand's. Single operands are walked
// down in a loop, so that the recursion goes as deep as joins stand in each other, and no deeper.
pub fn first_record(rule: &[u8], starts: &[u8; RECORDS], last: usize) -> usize
    requires front { Front (starts_of rule.now) starts.now }
    requires ends { Ends (records_of rule.now) last }
    ensures { First (records_of rule.now) last result }
{
    let inner = inner_record(rule, starts, last);
    if operands_of(record_of(rule, starts, inner)) == 0 {
        return inner;
    }
    let second = first_record(rule, starts, inner - 1);
    first_record(rule, starts, second - 1)
}
