// The number table by levels: what `fewest` would sweep for, found in the order of the numbers. Nothing here is trusted: each store is
// an offer, and the sweeps that follow certify that nothing is missing.
#![tactic(auto)]

mod node; // node.rt: a record of the rule with its operands
mod bits; // bits.rt: the steps of a set
pub mod sets; // sets.rt: which steps come before which
mod spot; // spot.rt: a term, and a triple in which it stands
mod level; // level.rt: the terms of a level
mod step; // step.rt: a step of the rule, by its record
pub mod search; // search.rt: the table by levels, from the finish of each body
pub mod fill; // fill.rt: the whole table
