// The lengths of the lent tables, compared in one place for every call.
ghost use Rattle.std.specs.Prelude.{◌*◌, ◌≡◌};
ghost use Rattle.meaning.specs.Limits.{terms, records};
ghost use Rattle.fewest.specs.Tells.{Tells};

use fewest::table::ENTRIES;
use records::{Reason, Refusal};

// The refusal where a length is wrong.
pub(crate) const WRONG_LENGTH: Refusal = Refusal {
    reason: Reason::TableLength,
    place: 0,
};

// A test, which each call turns into its refusal. Whether the lent tables have their lengths; those of the numbers, and of the third table or the room, are given.
pub fn fit(asked: usize, numbers: usize, third: usize, long: usize, wide: usize) -> bool
    ensures { Tells ((asked ≡ records * terms) × (numbers ≡ long) × (third ≡ wide)) result }
{
    (asked, numbers, third) == (ENTRIES, long, wide)
}
