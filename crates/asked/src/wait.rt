// Whether a question waits: the look at the table that certifies that nothing asked for is unmarked.
ghost use Rattle.std.specs.Prelude.{◌≡◌, false, ◌*◌, ◌≤◌};
ghost use Rattle.meaning.specs.Limits.{terms, records};
ghost use Rattle.asked.specs.Serve.{NoneWaits, LeftOver};

use crate::mark::{WAITS, waits_at};
use fewest::table::ENTRIES;
use records::TERMS;

// Whether a question may wait; if not, none does. No byte is left out, so many are looked at at once.
fn waits(asked: &[u8; ENTRIES]) -> bool
    ensures { result ≡ false → NoneWaits asked.now (records * terms) }
{
    let mut most = 0;
    for byte in &asked[WAITS..] {
        most = u8::max(most, *byte);
    }
    0 < most
}

// The first question of the first records that waits, as a record and a term, if one does.
#[tactic(auto, unfolding(meaning::specs::Limits::terms))]
fn waiting(asked: &[u8; ENTRIES], count: usize) -> Option<(usize, usize)>
    requires { count ≤ records }
    ensures { LeftOver count asked.now result }
{
    for r in 0..count {
        for t in 0..TERMS {
            if waits_at(asked, r, t) {
                return Some((r, t));
            }
        }
    }
    None
}

// The same, where most often none does.
pub fn left_over(asked: &[u8; ENTRIES], count: usize) -> Option<(usize, usize)>
    requires { count ≤ records }
    ensures { LeftOver count asked.now result }
{
    if waits(asked) {
        return waiting(asked, count);
    }
    None
}
