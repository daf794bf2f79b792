// Site records: one triple each; the reader that hands them out; and a whole site checked, through it from where it is not plainly sound.
// `site_record` decides what stands at a place. The reader only keeps the bytes and the place.
ghost use Rattle.std.specs.Prelude.{◌≡◌, ◌+◌, ◌*◌, ◌-◌, ◌<◌, ◌≤◌, true, length};
ghost use Rattle.meaning.specs.Limits.{triples};
ghost use Rattle.records.specs.Sites.{triple_width, triple_of, term_at, in_code, all_terms, is_in_order, site_record_at, Checked, Begun};
ghost use Rattle.records.specs.Plain.{Plain};
ghost use Rattle.records.specs.Reader.{handed, standing, Hands};

use crate::bytes::{BASE, FOUR_BYTES, TWO_BYTES, byte_at, eight_at, is_term, number_at};
use crate::{Reason, Refusal, TRIPLES, Triple};

// A site record's first byte, and its length.
pub const TRIPLE_KIND: u8 = 10;

pub const TRIPLE_WIDTH: usize = 7;

// Where its terms stand in a record, by their low bytes: a term is less than the base, so its high byte is 0.
pub const SUBJECT: usize = 2;

pub const PREDICATE: usize = 4;

pub const OBJECT: usize = 6;

// The triple of the whole record that begins at a place.
#[tactic(auto, unfolding(crate::specs::Sites::triple_of))]
fn triple_from(site: &[u8], at: usize) -> Triple
    requires { at + triple_width ≤ length site.now }
    ensures { result ≡ in_code (triple_of site.now at) }
{
    Triple {
        subject: number_at(site, at + 1),
        predicate: number_at(site, at + 3),
        object: number_at(site, at + 5),
    }
}

// Triple number k of a site that has so many.
pub fn triple_at(site: &[u8], k: usize) -> Triple
    requires { (k + 1) * triple_width ≤ length site.now }
    ensures { result ≡ in_code (triple_of site.now (k * triple_width)) }
{
    triple_from(site, k * TRIPLE_WIDTH)
}

// The term that stands at a part of triple number k.
#[tactic(auto, unfolding(crate::specs::Sites::term_at))]
pub fn term_at(site: &[u8], k: usize, part: usize) -> usize
    requires { ((k + 1) * triple_width ≤ length site.now) × (part < triple_width) }
    ensures { result ≡ term_at site.now k part }
{
    byte_at(site, k * TRIPLE_WIDTH + part)
}

// Each of its numbers is a term.
#[tactic(auto, unfolding(crate::specs::Sites::all_terms))]
fn all_terms(x: Triple) -> bool
    ensures { result ≡ all_terms x }
{
    is_term(x.subject) && is_term(x.predicate) && is_term(x.object)
}

// The record is the first, or its triple stands above that of the record before.
#[tactic(auto, unfolding(crate::specs::Sites::is_in_order, crate::specs::Sites::is_above))]
fn in_order(site: &[u8], at: usize, x: Triple) -> bool
    requires { at + triple_width ≤ length site.now }
    ensures { result ≡ is_in_order site.now at x }
{
    at < TRIPLE_WIDTH || triple_from(site, at - TRIPLE_WIDTH) < x
}

// The record that begins at a place: its triple, the end, or the first of the refusals 4, 2, 3, 5 and 6 that holds.
#[tactic(auto, unfolding(crate::specs::Sites::site_record_at, meaning::specs::Limits::triples))]
pub fn site_record(site: &[u8], at: usize) -> Result<Option<Triple>, Refusal>
    ensures { result ≡ site_record_at site.now at }
{
    let Some(kind) = site.get(at) else {
        return Ok(None);
    };
    if TRIPLES * TRIPLE_WIDTH <= at {
        return Err(Reason::SiteLong.at(at));
    }
    if *kind != TRIPLE_KIND {
        return Err(Reason::SiteKind.at(at));
    }
    if site.len() - at < TRIPLE_WIDTH {
        return Err(Reason::SiteCut.at(at));
    }
    let x = triple_from(site, at);
    if !all_terms(x) {
        return Err(Reason::SiteTerm.at(at));
    }
    if !in_order(site, at, x) {
        return Err(Reason::SiteOrder.at(at));
    }
    Ok(Some(x))
}

// What is handed out at a place, and the place where reading goes on.
#[derive(Clone, Copy)]
pub struct Handed {
    pub found: Result<Option<Triple>, Refusal>,
    pub at: usize,
}

// The site reader: the lent bytes and its place in them. The count of triples read is the place divided by a record's length.
#[derive(Clone, Copy)]
pub struct SiteReader<'a> {
    site: &'a [u8],
    at: usize,
}

impl<'a> SiteReader<'a> {
    // A reader that stands at a place of a site.
    pub fn new(site: &'a [u8], at: usize) -> SiteReader<'a>
        ensures { result ≡ standing site.entry at }
    {
        SiteReader { site, at }
    }

    // The next triple, the end, or the refusal; after the end or a refusal the same again.
    pub fn next(&mut self) -> Result<Option<Triple>, Refusal>
        ensures { Hands self.old result self.new }
    {
        let found = site_record(self.site, self.at)?;
        if found.is_some() {
            self.at += TRIPLE_WIDTH;
        }
        Ok(found)
    }

    // How many bytes are left.
    pub fn left(self) -> usize
        ensures { result ≡ length self.entry.site.now - self.entry.at }
    {
        self.site.len().saturating_sub(self.at)
    }
}

// What a reader that stands at a place hands out, and where it stands then.
pub fn read_at(site: &[u8], at: usize) -> Handed
    ensures { result ≡ handed site.now at }
{
    let mut reader = SiteReader::new(site, at);
    let found = reader.next();
    Handed {
        found,
        at: reader.at,
    }
}

// The eight bytes of a record and the next one's kind show it sound: both kinds are a triple's, the high bytes of its terms are 0,
// and the number is above that of the record before. In this order the compiler makes one test of the first four.
fn is_plain(eight: usize, before: usize) -> bool
    ensures { result ≡ true → Plain eight × (before < eight) }
{
    eight % BASE == usize::from(TRIPLE_KIND)
        && eight / TWO_BYTES % BASE == 0
        && eight / FOUR_BYTES % BASE == 0
        && eight / FOUR_BYTES / TWO_BYTES == usize::from(TRIPLE_KIND) * BASE
        && before < eight
}

// Where the last whole record begins, of as many as are allowed: a record before it has eight bytes.
#[tactic(auto, unfolding(meaning::specs::Limits::triples))]
fn last_place(site: &[u8]) -> usize
    ensures { (result ≤ length site.now - triple_width) × (result < triples * triple_width) }
{
    site.len()
        .min(TRIPLES * TRIPLE_WIDTH)
        .saturating_sub(TRIPLE_WIDTH)
}

// The place up to which every record is plainly sound; the last is left to the reader.
// No `for` by step_by: it would work out again where it stopped, with one test more each turn.
fn plain_until(site: &[u8]) -> usize
    ensures { Begun site.now result }
{
    let last = last_place(site);
    let mut at: usize = 0;
    let mut before: usize = 0;
    while at < last {
        let eight = eight_at(site, at);
        if !is_plain(eight, before) {
            return at;
        }
        before = eight;
        at += TRIPLE_WIDTH;
    }
    at
}

// All of a site: how many triples it has, or its first refusal. Reading begins where the records are not plainly sound.
pub fn check_site(site: &[u8]) -> Result<usize, Refusal>
    ensures { Checked site.now result }
{
    let mut at = plain_until(site);
    loop {
        let step = read_at(site, at);
        let Some(_) = step.found? else {
            return Ok(at / TRIPLE_WIDTH);
        };
        at = step.at;
    }
}
