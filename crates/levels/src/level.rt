// The terms of a level, in scratch: each once in its list, and for each the steps that are new there.
// There are two levels by turns, the one that is worked and the one after it.
#![tactic(auto, unfolding(meaning::specs::Limits::terms, meaning::specs::Limits::triples))]

ghost use Rattle.std.specs.Prelude.{◌≡◌, ◌+◌, ◌<◌, ◌≤◌};
ghost use Rattle.meaning.specs.Limits.{terms};
ghost use Rattle.fewest.specs.Threads.{free};
ghost use Rattle.fewest.specs.Kept.{Kept};

use crate::sets::{LIST, NEW};
use fewest::cells::{byte_at, cell, put_byte, put_set};
use records::TERMS;

// Which of the two it is, and how long its list is.
// The list is bytes of scratch with its length here, and no Vec: the evaluator has fixed memory and no heap.
#[derive(Clone, Copy)]
pub struct Level {
    second: bool,
    pub len: usize,
}

impl Level {
    // The first level, with no term.
    pub fn first() -> Level
        ensures { result.len ≡ 0 }
    {
        Level {
            second: false,
            len: 0,
        }
    }

    // The level after this one, with no term so far.
    pub fn next(self) -> Level
        ensures { result.len ≡ 0 }
    {
        Level {
            second: !self.second,
            len: 0,
        }
    }

    // The cell of a term's steps.
    fn cell_of(self, t: usize) -> usize
        requires { t < terms }
        ensures { free ≤ result }
    {
        NEW + usize::from(self.second) * TERMS + t
    }

    // The byte at a place of the list.
    fn place_of(self, i: usize) -> usize
        ensures { free + free ≤ result }
    {
        LIST + LIST + usize::from(self.second) * TERMS + i % TERMS
    }

    // The term at a place of the list.
    pub fn term(self, scratch: &[u8], i: usize) -> usize
        ensures { result < terms }
    {
        byte_at(scratch, self.place_of(i)) % TERMS
    }

    // The steps at a term.
    pub fn steps(self, scratch: &[u8], t: usize) -> usize
        requires { t < terms }
    {
        cell(scratch, self.cell_of(t))
    }

    pub fn put_steps(self, scratch: &mut [u8], t: usize, set: usize)
        requires { t < terms }
        ensures { Kept scratch.old scratch.new }
    {
        put_set(scratch, self.cell_of(t), set)
    }

    // The term becomes the last of the list, if there is room.
    pub fn push(&mut self, scratch: &mut [u8], t: usize)
        ensures { Kept scratch.old scratch.new }
    {
        if self.len < TERMS {
            put_byte(scratch, self.place_of(self.len), t);
            self.len += 1;
        }
    }

    // The step that is the set `one` is new at t.
    pub fn note(&mut self, scratch: &mut [u8], one: usize, t: usize)
        requires { t < terms }
        ensures { Kept scratch.old scratch.new }
    {
        let had = self.steps(scratch, t);
        self.put_steps(scratch, t, had | one);
        if had == 0 {
            self.push(scratch, t);
        }
    }
}
