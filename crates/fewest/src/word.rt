// Whether a term is in the vocabulary: the first triple of its thread tells, by subject or by object.
ghost use Rattle.std.specs.Prelude.{ℕ, ◌<◌, List};
ghost use Rattle.meaning.specs.Limits.{terms};
ghost use Rattle.meaning.specs.Site.{Voc};
ghost use Rattle.records.specs.Rules.{axis_of};
ghost use Rattle.records.specs.Sites.{site_of};
ghost use Rattle.fewest.specs.Threads.{Threads, start_along};
ghost use Rattle.fewest.specs.Tells.{Tells};
ghost use Rattle.fewest.specs.Words.{StandsAs};

use crate::threads::first_from;
use records::Axis;

// Some triple starts at the term along this axis.
fn starts_along(scratch: &[u8], triples: usize, axis: Axis, t: usize) -> bool
    ensures { (s : List ℕ) → Threads s triples scratch.now → t < terms → Tells (StandsAs (start_along (axis_of axis)) (site_of s triples) t) result }
{
    first_from(scratch, axis, t) < triples
}

// Some triple has the term as subject, where next starts, or as object, where its inverse does.
pub fn word(scratch: &[u8], triples: usize, t: usize) -> bool
    ensures { (s : List ℕ) → Threads s triples scratch.now → t < terms → Tells (Voc (site_of s triples) t) result }
{
    starts_along(scratch, triples, Axis::Next, t)
        || starts_along(scratch, triples, Axis::NextInverse, t)
}
