// Bytes to triples, rule records and query terms, with document 01's numbered refusals.
// The limits of document 01 are named here and nowhere else in code.
#![tactic(auto)]

pub mod bytes; // bytes.rt: numbers as they stand in bytes
pub mod site; // site.rt: site records, their reader, whole sites
pub mod rule; // rule.rt: rule records, whole rules, the first record of an expression
pub mod query; // query.rt: the terms of a query

ghost use Rattle.std.specs.Prelude.{◌≡◌};
ghost use Rattle.records.specs.Refusals.{number_of};
ghost use Rattle.records.specs.declared.Reason.{Reason};
ghost use Rattle.records.specs.Rules.{refusal};

use std::error::Error;
use std::fmt;

pub const TERMS: usize = 256;

pub const TRIPLES: usize = 1024;

pub const RECORDS: usize = 32;

pub const NONE: usize = 65535;

// One triple of a site. Triples are ordered by subject, then predicate, then object, as a site has them.
#[derive(Clone, Copy, Debug, PartialEq, Eq, PartialOrd, Ord)]
pub struct Triple {
    pub subject: usize,
    pub predicate: usize,
    pub object: usize,
}

// The label of a step: none, a named term, or a test, which is the expression before it.
#[derive(Clone, Copy, Debug, PartialEq, Eq)]
pub enum Label {
    Any,
    Term(usize),
    Test,
}

// How a step takes a triple: next from its subject past its predicate to its object, edge from its subject past its object to its
// predicate, node from its predicate past its subject to its object; the inverses go back.
#[derive(Clone, Copy, Debug, PartialEq, Eq)]
pub enum Axis {
    Next,
    NextInverse,
    Edge,
    EdgeInverse,
    Node,
    NodeInverse,
}

// A step holds its axis, none where it is self and takes no triple, and its label.
#[derive(Clone, Copy, Debug, PartialEq, Eq)]
pub struct Step {
    pub axis: Option<Axis>,
    pub label: Label,
}

// One record of a rule.
#[derive(Clone, Copy, Debug, PartialEq, Eq)]
pub enum Record {
    Step(Step),
    Sequence,
    Choice,
    Star,
}

// Why an input is refused, with document 01's number of each reason: `number_of` in specs/ is the same table.
#[derive(Clone, Copy, Debug, PartialEq, Eq)]
pub enum Reason {
    TableLength = 1,
    SiteKind = 2,
    SiteCut = 3,
    SiteLong = 4,
    SiteTerm = 5,
    SiteOrder = 6,
    RuleLong = 7,
    RuleKind = 8,
    RuleCut = 9,
    RuleAxis = 10,
    RuleTerm = 11,
    TooFew = 12,
    NotOne = 13,
    QueryTerm = 14,
    Room = 15,
    Input = 16,
}

impl Reason {
    // The refusal for this reason at a place.
    pub(crate) fn at(self, place: usize) -> Refusal
        ensures { result ≡ refusal self place }
    {
        Refusal {
            reason: self,
            place,
        }
    }
}

// A refusal: why, and the place.
#[derive(Clone, Copy, Debug, PartialEq, Eq)]
pub struct Refusal {
    pub reason: Reason,
    pub place: usize,
}

// Document 01's number of a reason.
pub fn number(reason: Reason) -> u32
    ensures { result ≡ number_of reason }
{
    reason as u32
}

impl From<Reason> for u32 {
    ghost from_gives = { λ reason number. number ≡ number_of reason };

    fn from(reason: Reason) -> u32 {
        number(reason)
    }
}

// A refusal is printed as document 01's number of its reason, and its place.
impl fmt::Display for Refusal {
    ghost use Rattle.std.specs.Prelude.{Some};
    ghost use Rattle.records.specs.Refusals.{refusal_text};

    ghost output = { λ x. Some (refusal_text x) };

    fn fmt<W: fmt::Write>(&self, f: &mut fmt::Formatter<W>) -> fmt::Result {
        write!(f, "{} {}", number(self.reason), self.place)
    }
}

impl Error for Refusal {}
