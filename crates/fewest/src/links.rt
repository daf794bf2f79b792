// The links of a checked rule: for each record how it stands and below which record, and for each join the record of its first
// operand. What finishes with its parent has its parent's links, so that no walk goes by it. The loops over the table know the
// rule by these.
ghost use Rattle.std.specs.Prelude.{◌≡◌, ◌<◌, Ok, get_or, replicate};
ghost use Rattle.meaning.specs.Limits.{records};
ghost use Rattle.records.specs.Bytes.{base};
ghost use Rattle.records.specs.Rules.{RuleChecked, starts_of, records_of, Front};
ghost use Rattle.records.specs.First.{taken, Ends};
ghost use Rattle.fewest.specs.Frame.{links};
ghost use Rattle.fewest.specs.Links.{role_number};
ghost use Rattle.fewest.specs.LinksOf.{stand, begin, Joined, Stood, LinksOf};

use records::rule::{first_record, record_of};
use records::{Label, RECORDS, Record};
use std::marker::Model;

// How an expression stands in the rule.
#[derive(Clone, Copy, Debug, PartialEq, Eq)]
pub enum Role {
    Whole,
    Test,
    First,
    Round,
}

// One record's: its role and the record below which it has it, 0 for the whole rule; where it is a join, its first operand, else 0.
// No Options: the lists of specs/Frame have these numbers, and nothing stands below record 0.
#[derive(Clone, Copy)]
struct Entry {
    up: u8,
    role: Role,
    first: u8,
}

// The links of all records, by number.
#[derive(Clone, Copy)]
pub struct Links {
    of: [Entry; RECORDS],
}

impl Model for Links {
    ghost use Rattle.fewest.specs.Frame.{Links};

    ghost Value = { Links };

    ghost use Rattle.std.proofs.Common.{ap};
    ghost use Rattle.fewest.specs.Links.{seen, stored, seen_stored};

    ghost view = { λ a. seen a.of };

    ghost inverse = { λ L. record { of = stored L } };

    ghost inverse_ok = { λ a h. ap (λ ls. record { of = ls }) (seen_stored a.of) };
}

#[tactic(auto, unfolding(meaning::specs::Limits::records))]
impl Links {
    // Those of no rule: each record stands as the whole.
    pub fn new() -> Links
        ensures { result ≡ links (replicate records 0) (replicate records 0) (replicate records 0) }
    {
        Links {
            of: [Entry {
                up: 0,
                role: Role::Whole,
                first: 0,
            }; RECORDS],
        }
    }

    // How record r's expression stands.
    pub fn role(&self, r: usize) -> Role
        requires { r < records }
        ensures { role_number result ≡ get_or self.now.role r 0 }
    {
        self.of[r].role
    }

    // The record below which it stands so, 0 for the whole rule.
    pub fn above(&self, r: usize) -> usize
        requires { r < records }
        ensures { result ≡ get_or self.now.up r 0 }
    {
        self.of[r].up as usize
    }

    // The record of the first operand, where record r is a join.
    pub fn first(&self, r: usize) -> usize
        requires { r < records }
        ensures { result ≡ get_or self.now.first r 0 }
    {
        self.of[r].first as usize
    }

    // What is stored of record r.
    fn entry(&self, r: usize) -> Entry
        requires { r < records }
        ensures { (result.up ≡ get_or self.now.up r 0) × (role_number result.role ≡ get_or self.now.role r 0) }
    {
        self.of[r]
    }

    // The expression of record k stands so below this record.
    pub fn stand(&mut self, k: usize, above: u8, stands: Role)
        requires { k < records }
        ensures { self.new ≡ stand k above (role_number stands) self.old }
    {
        self.of[k] = Entry {
            up: above,
            role: stands,
            ..self.of[k]
        };
    }

    // The first operand of the join of record r is this record.
    pub fn begin(&mut self, r: usize, operand: usize)
        requires { (r < records) × (operand < base) }
        ensures { self.new ≡ begin r operand self.old }
    {
        self.of[r].first = operand as u8;
    }

    // The operands of a join: the second ends just before it and stands as it does; the first ends just before the second begins.
    fn link_join(&mut self, rule: &[u8], starts: &[u8; RECORDS], r: usize, above: u8, stands: Role)
        requires { Front (starts_of rule.now) starts.now × Ends (records_of rule.now) r × (taken (records_of rule.now) r ≡ 2) }
        ensures { Joined (records_of rule.now) r above (role_number stands) self.old self.new }
    {
        let second = r - 1;
        let operand = first_record(rule, starts, second) - 1;
        let own = self.entry(r);
        self.stand(second, own.up, own.role);
        self.stand(operand, above, stands);
        self.begin(r, operand);
    }

    // The operands of record r, which says how they stand.
    fn link_record(&mut self, rule: &[u8], starts: &[u8; RECORDS], r: usize)
        requires { Front (starts_of rule.now) starts.now × Ends (records_of rule.now) r }
        ensures { Stood (records_of rule.now) r self.old self.new }
    {
        match record_of(rule, starts, r) {
            Record::Step(step) => match step.label {
                Label::Any | Label::Term(_) => {}
                Label::Test => self.stand(r - 1, r as u8, Role::Test),
            },
            Record::Sequence => self.link_join(rule, starts, r, r as u8, Role::First),
            Record::Choice => {
                let own = self.entry(r);
                self.link_join(rule, starts, r, own.up, own.role);
            }
            Record::Star => self.stand(r - 1, r as u8, Role::Round),
        }
    }
}

// The links of a checked rule, from the last record to the first: a record's entries stand before its operands take them over.
// The whole rule is no operand, and keeps its entries.
pub fn link(rule: &[u8], starts: &[u8; RECORDS], count: usize) -> Links
    requires { RuleChecked rule.now (Ok count) × Front (starts_of rule.now) starts.now }
    ensures { LinksOf rule.now count result }
{
    let mut links = Links::new();
    for r in (0..count).rev() {
        links.link_record(rule, starts, r);
    }
    links
}
