// Decide, ends and starts on lent tables, and the ceiling: document 01's calls, for all inputs.
#![tactic(auto, unfolding(meaning::specs::Limits::terms, meaning::specs::Limits::records))]

pub mod query; // query.rt: a query that is in order
pub mod admit; // admit.rt: what is refused before any table is touched
pub mod lengths; // lengths.rt: the lengths of what is lent
pub mod evaluate; // evaluate.rt: both tables
pub mod room; // room.rt: what a room is lent in
pub mod write; // write.rt: the path into a room, the numbers out of their bytes
pub mod decide; // decide.rt: one pair decided, for either room, and the call on bytes
pub mod decide_words; // decide_words.rt: the same, with numbers and room lent as 16-bit numbers
pub mod lists; // lists.rt: all ends
pub mod origins; // origins.rt: all starts
pub mod ceiling; // ceiling.rt: the most that a figure can be

// Yes or no, the work figure, and the path's steps (0 on no).
// No Option of steps: callers and C take these three, and `Decided` says of a no that its steps are 0.
#[derive(Clone, Copy, Debug, PartialEq, Eq)]
pub struct Answer {
    pub yes: bool,
    pub figure: usize,
    pub steps: usize,
}

// How many ends, and the work figure.
#[derive(Clone, Copy, Debug, PartialEq, Eq)]
pub struct Found {
    pub ends: usize,
    pub figure: usize,
}
