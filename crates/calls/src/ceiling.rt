// The ceiling, known before the run: records times one more than the different terms of the site.
ghost use Rattle.std.specs.Prelude.{◌≡◌, ◌<◌, ◌≤◌, set, replicate};
ghost use Rattle.meaning.specs.Limits.{terms};
ghost use Rattle.meaning.specs.Site.{Mentioned};
ghost use Rattle.records.specs.Sites.{site_of};
ghost use Rattle.calls.specs.Tables.{TermTable};
ghost use Rattle.calls.specs.Inner.{Counted};
ghost use Rattle.calls.specs.Promise.{Limited};

use crate::admit::admit;
use asked::count::count;
use fewest::task::Site;
use records::site::triple_at;
use records::{Refusal, TERMS, Triple};

// The terms of one triple are marked.
fn note_triple(x: Triple, seen: &mut [u8; TERMS])
    requires { (x.subject < terms) × (x.predicate < terms) × (x.object < terms) }
    ensures { seen.new ≡ set (set (set seen.old x.subject 1) x.predicate 1) x.object 1 }
{
    seen[x.subject] = 1;
    seen[x.predicate] = 1;
    seen[x.object] = 1;
}

// The terms of each triple are marked.
fn note(site: &Site, seen: &mut [u8; TERMS])
    requires { seen.old ≡ replicate terms 0 }
    ensures { TermTable (Mentioned (site_of site.now.bytes.now site.now.triples)) seen.new }
{
    for k in 0..site.triples {
        note_triple(triple_at(site.bytes, k), seen);
    }
}

// How many different terms a site mentions, predicates included.
fn different_terms(site: &Site) -> usize
    ensures { Counted site.now.bytes.now site.now.triples result × (result ≤ terms) }
{
    let mut seen = [0; TERMS];
    note(site, &mut seen);
    count(&seen)
}

// The most that a figure can be for this site and rule.
pub fn ceiling(site: &[u8], rule: &[u8]) -> Result<usize, Refusal>
    ensures { Limited site.now rule.now result }
{
    let query = admit(site, rule, 0, 0)?;
    Ok(query.count * (different_terms(&query.site) + 1))
}
