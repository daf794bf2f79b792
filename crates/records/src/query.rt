// The terms of a query.
ghost use Rattle.std.specs.Prelude.{◌≡◌};
ghost use Rattle.records.specs.Queries.{query_term};

use crate::bytes::is_term;
use crate::{Reason, Refusal};

// A query's start (place 0) or end (place 1), or why it is refused. The place is the refusal's, as document 01 numbers it.
#[tactic(auto, unfolding(crate::specs::Queries::query_term))]
pub fn query_term(term: u32, place: usize) -> Result<usize, Refusal>
    ensures { result ≡ query_term term place }
{
    let number = term as usize;
    if is_term(number) {
        Ok(number)
    } else {
        Err(Reason::QueryTerm.at(place))
    }
}
