// The byte table of questions, the figure and the ends: marks are only ever added where the marks ask for them, and each marked
// question is asked on. The order of work is free; what it leaves is certified by a look that no question waits.
#![tactic(auto)]

pub mod words; // words.rt: sets of records as words
pub mod mark; // mark.rt: marks, and the questions that wait
pub mod follow; // follow.rt: what follows where an expression is done
pub mod seek; // seek.rt: one look at what a mark asks for
pub mod wait; // wait.rt: whether a question waits
pub mod chase; // chase.rt: the questions by a queue of terms
pub mod narrow; // narrow.rt: the marks as rows
pub mod spread; // spread.rt: the questions of a rule, until none waits
pub mod count; // count.rt: how many are marked
