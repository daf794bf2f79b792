// A query that is in order: its site and its rule were read, and its terms are terms.
ghost use Rattle.std.specs.Prelude.{◌<◌};
ghost use Rattle.meaning.specs.Limits.{terms};
ghost use Rattle.calls.specs.Given.{Read};
ghost use Rattle.calls.specs.Once.{read_once};

use fewest::Goal;
use fewest::links::{Links, link};
use fewest::task::{Ahead, Rule, Site, Task};
use records::RECORDS;

// The site, the rule with the places of its records, and the two terms. `Rule` lends the places; here they are kept, in fixed memory.
#[derive(Clone, Copy)]
pub struct Query<'a> {
    pub site: Site<'a>,
    pub rule: &'a [u8],
    pub starts: [u8; RECORDS],
    pub count: usize,
    pub start: usize,
    pub end: usize,
    pub ghost read: { Read site.bytes.now rule.now site.triples count starts } by { read_once site.bytes.now rule.now site.triples count starts },
    pub ghost start_fits: { start < terms },
    pub ghost end_fits: { end < terms },
}

impl<'a> Query<'a> {
    ghost use Rattle.fewest.specs.LinksOf.{LinksOf};
    ghost use Rattle.calls.specs.Inner.{TaskOf};

    // The links of its rule's records.
    pub fn links(&self) -> Links
        ensures { LinksOf self.now.rule.now self.now.count result }
    {
        link(self.rule, &self.starts, self.count)
    }

    // What its tables are worked for, by those links, to a goal.
    pub fn task<'b>(&'b self, links: &'b Links, goal: Goal) -> Task<'b>
        requires { LinksOf self.now.rule.now self.now.count links.now }
        ensures { TaskOf self.now goal result }
    {
        Task {
            site: self.site,
            rule: Rule {
                bytes: self.rule,
                starts: &self.starts,
                count: self.count,
            },
            ahead: Ahead { links, goal },
        }
    }
}
