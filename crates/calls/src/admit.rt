// What is refused before any table is touched: the site, the rule, the query's terms, in document 01's order.
ghost use Rattle.calls.specs.Inner.{Admitted};

use crate::query::Query;
use fewest::task::Site;
use records::Refusal;
use records::query::query_term;
use records::rule::{RuleRead, check_rule};
use records::site::check_site;

// The query that is in order, or the first refusal. A call that takes no start or no end passes 0, which is a term.
// 0 and no Option: what is promised (`Admitted`) is of two terms, and the calls' own promises say which of them was asked.
pub fn admit<'a>(site: &'a [u8], rule: &'a [u8], start: u32, end: u32) -> Result<Query<'a>, Refusal>
    ensures { Admitted site.now rule.now start end result }
{
    let triples = check_site(site)?;
    let RuleRead { count, starts } = check_rule(rule)?;
    let from = query_term(start, 0)?;
    let to = query_term(end, 1)?;
    let query = Query {
        site: Site {
            bytes: site,
            triples,
        },
        rule,
        starts,
        count,
        start: from,
        end: to,
    };
    Ok(query)
}
