// One case, run and written as a line.
use records::Refusal;
use records::query::query_term;
use records::rule::check_rule;
use records::site::check_site;
use std::io;

// The case's label, and what it comes to: `ok` and a count, or the refusal.
fn show<P: Print>(rt: &P, label: &[u8], found: Result<usize, Refusal>) -> io::Result<()> {
    rt.write_all(label)?;
    match found {
        Ok(count) => println!(rt; " ok {count}"),
        Err(refusal) => println!(rt; " {refusal}"),
    }
}

// A site: its triples are counted.
pub fn site<P: Print>(rt: &P, label: &[u8], bytes: &[u8]) -> io::Result<()> {
    show(rt, label, check_site(bytes))
}

// A rule: its records are counted.
pub fn rule<P: Print>(rt: &P, label: &[u8], bytes: &[u8]) -> io::Result<()> {
    show(rt, label, check_rule(bytes).map(|read| read.count))
}

// A query's start (place 0) or end (place 1): the term itself.
pub fn query<P: Print>(rt: &P, label: &[u8], number: u32, place: usize) -> io::Result<()> {
    show(rt, label, query_term(number, place))
}
