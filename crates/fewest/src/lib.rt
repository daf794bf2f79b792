// The number table, worked on the lent bytes: entries are only ever lowered to what the table offers, and sweeps go on
// until one changes nothing. The order of work is free; what it leaves is certified by the last sweep.
#![tactic(auto)]

pub mod pairs; // pairs.rt: numbers in byte pairs
pub mod table; // table.rt: entries by record and term
pub mod task; // task.rt: what the loops over the tables go by
pub mod links; // links.rt: where each record's expression stands in the rule
pub mod left; // left.rt: what is left once an expression is finished
pub mod look; // look.rt: one look at one offer
pub mod rows; // rows.rt: looks that store nothing, by whole rows
pub mod cells; // cells.rt: scratch in the lent byte table
pub mod threads; // threads.rt: the triples by their terms, in scratch
pub mod word; // word.rt: whether a term is in the vocabulary
pub mod sweep; // sweep.rt: sweeps over the table, until one changes nothing
pub mod starts; // starts.rt: the starts, read off the table

// Where the rule's own body may finish: no Option, since the meaning has this word, and names for its two cases.
#[derive(Clone, Copy)]
pub enum Goal {
    End(usize),
    Anywhere,
}
