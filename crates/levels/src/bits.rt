// The steps of a set, by their bits.
#![tactic(auto, unfolding(meaning::specs::Limits::records))]

ghost use Rattle.std.specs.Prelude.{◌<◌, ⊤, MatchOption};
ghost use Rattle.std.specs.Iterator.{at_most};
ghost use Rattle.meaning.specs.Limits.{records};

use records::RECORDS;

// From the lowest bit up. Nothing is promised of them but that each is the number of a record, and that they end.
#[derive(Drop)]
pub struct Bits(pub usize);

impl Iterator for Bits {
    type Item = usize;

    ghost next_gives = { λ _ bit _. MatchOption bit ⊤ (λ i. i < records) };

    ghost remaining = { λ set. at_most set.0 };

    fn next(&mut self) -> Option<usize> {
        if self.0 == 0 {
            return None;
        }
        let bit = self.0.trailing_zeros() as usize % RECORDS;
        self.0 &= self.0 - 1;
        Some(bit)
    }
}
