// Which records can be entered at no cost where the walk stands, as flags: a record is shut or open.
// A record is only ever opened for a reason, and sweeps go on until one changes nothing: then none is missing.
ghost use Rattle.std.specs.Prelude.{◌<◌, ◌≤◌, ◌≡◌, false};
ghost use Rattle.meaning.specs.Limits.{records};
ghost use Rattle.records.specs.Rules.{rec_of, records_of};
ghost use Rattle.fewest.specs.Frame.{Climbs};
ghost use Rattle.fewest.specs.Next.{Next};
ghost use Rattle.fewest.specs.Work.{Sits};
ghost use Rattle.path.specs.Flags.{Placed, RuleReady, Opening, linked, Begins, LeadsBy, Led, SweptOpen, Entered};

use fewest::links::{Links, Role};
use fewest::task::Rule;
use records::rule::record_of;
use records::{RECORDS, Record};

// Record b is open. True if it was not, or if anything was changed before.
fn mark(shut: &mut [bool; RECORDS], b: usize, was: bool) -> bool
    requires { b < records }
    ensures { Opening (λ c. c ≡ b) shut.old shut.new was result }
{
    if shut[b] {
        shut[b] = false;
        return true;
    }
    was
}

// Once record r's expression is done, what comes next is open: the second of a sequence, or a star's operand once more, is the
// record before it.
fn follow(links: &Links, shut: &mut [bool; RECORDS], r: usize, was: bool) -> bool
    requires { Climbs records links.now.up links.now.role × (r < records) }
    ensures { Opening (Next (linked links.now.up links.now.role) r) shut.old shut.new was result }
{
    let mut changed = was;
    let mut at = r;
    // No iterator: three of the four roles end the walk, two of them with a mark, so that a fold would keep this match and a flag.
    loop {
        let above = links.above(at);
        match links.role(at) {
            Role::Whole | Role::Test => return changed,
            Role::First => return mark(shut, above - 1, changed),
            Role::Round => {
                changed = mark(shut, above - 1, changed);
                at = above;
            }
        }
    }
}

// Before the first step the whole rule is open; after a step, what comes once its record is done.
fn begin(count: usize, links: &Links, after: Option<usize>, shut: &mut [bool; RECORDS]) -> bool
    requires { Climbs records links.now.up links.now.role × (count ≤ records) × Placed after }
    ensures { Opening (Begins links.now.up links.now.role count after) shut.old shut.new false result }
{
    match after {
        None => count != 0 && mark(shut, count - 1, false),
        Some(r) => follow(links, shut, r, false),
    }
}

// What record r leads to: a sequence to its first operand f, a choice to both operands, a star to its operand and, at a term
// of the vocabulary, to what comes after the star.
fn inward(
    rec: Record,
    f: usize,
    links: &Links,
    word: bool,
    r: usize,
    shut: &mut [bool; RECORDS],
    was: bool,
) -> bool
    requires { Climbs records links.now.up links.now.role × (r < records) × (f < records) × Sits rec r }
    ensures { Opening (λ b. LeadsBy word (Next (linked links.now.up links.now.role) r) r f b (rec_of rec)) shut.old shut.new was result }
{
    match rec {
        Record::Step(_) => was,
        Record::Sequence => mark(shut, f, was),
        Record::Choice => {
            let changed = mark(shut, f, was);
            mark(shut, r - 1, changed)
        }
        Record::Star => {
            let changed = mark(shut, r - 1, was);
            if word {
                return follow(links, shut, r, changed);
            }
            changed
        }
    }
}

// What record r leads to, if it is open.
fn lead(
    rule: &Rule,
    links: &Links,
    word: bool,
    r: usize,
    shut: &mut [bool; RECORDS],
    was: bool,
) -> bool
    requires { RuleReady rule.now links.now × (r < rule.now.count) }
    ensures { Led links.now.up links.now.role (records_of rule.now.bytes.now) links.now.first word r shut.old shut.new was result }
{
    if shut[r] {
        return was;
    }
    let rec = record_of(rule.bytes, rule.starts, r);
    inward(rec, links.first(r), links, word, r, shut, was)
}

// One sweep. True if it changed anything. Operands stand before what they are of, so it goes down.
fn sweep(
    rule: &Rule,
    links: &Links,
    word: bool,
    after: Option<usize>,
    shut: &mut [bool; RECORDS],
) -> bool
    requires { RuleReady rule.now links.now × Placed after }
    ensures { SweptOpen links.now.up links.now.role (records_of rule.now.bytes.now) links.now.first word after shut.old shut.new result }
{
    let mut changed = begin(rule.count, links, after, shut);
    // The flag is handed through: what is promised (`Led`) says it of this record and of what was changed before.
    for r in (0..rule.count).rev() {
        changed = lead(rule, links, word, r, shut, changed);
    }
    changed
}

// All records that can be entered, none being open before.
pub fn enter(
    rule: &Rule,
    links: &Links,
    word: bool,
    after: Option<usize>,
    shut: &mut [bool; RECORDS],
)
    requires { RuleReady rule.now links.now × Placed after }
    ensures { Entered links.now.up links.now.role (records_of rule.now.bytes.now) links.now.first word after shut.old shut.new }
{
    while sweep(rule, links, word, after, shut) {}
}
