// What the loops over the tables go by: a site that was accepted, a rule, and what is ahead once a record's expression is finished.
// Each says of its parts what every function here stands on; that the rule was checked is the task's fact.
ghost use Rattle.meaning.specs.Limits.{records};
ghost use Rattle.records.specs.Sites.{Accepted};
ghost use Rattle.fewest.specs.Frame.{Climbs};
ghost use Rattle.fewest.specs.Work.{Ready};
ghost use Rattle.fewest.specs.Once.{sits_once};
ghost use Rattle.records.proofs.Once.{accepted_once};
ghost use Rattle.std.proofs.Props.{props};

use crate::Goal;
use crate::links::Links;
use records::RECORDS;

// A site that was accepted, by its bytes, as so many triples.
#[derive(Clone, Copy)]
pub struct Site<'a> {
    pub bytes: &'a [u8],
    pub triples: usize,
    pub ghost accepted: { Accepted bytes.now triples } by { accepted_once bytes.now triples },
}

// A rule by its bytes, the places of its records, and how many they are.
#[derive(Clone, Copy)]
pub struct Rule<'a> {
    pub bytes: &'a [u8],
    pub starts: &'a [u8; RECORDS],
    pub count: usize,
}

// What is ahead once a record's expression is finished: up the links, and where the rule's own body may finish.
#[derive(Clone, Copy)]
pub struct Ahead<'a> {
    pub links: &'a Links,
    pub goal: Goal,
    pub ghost climbs: { Climbs records links.now.up links.now.role } by { Prim.hlevel props },
}

// A site, a rule and what is ahead in it: what a table is worked for.
#[derive(Clone, Copy)]
pub struct Task<'a> {
    pub site: Site<'a>,
    pub rule: Rule<'a>,
    pub ahead: Ahead<'a>,
    pub ghost ready: { Ready site.bytes.now site.triples rule.bytes.now rule.starts.now rule.count ahead.links.now.up ahead.links.now.role ahead.links.now.first } by { Prim.hlevel (props, accepted_once, sits_once) },
}
