// One look at what a marked question asks for: its test at the middle, and what follows where it is done.
ghost use Rattle.std.specs.Prelude.{ℕ, ◌-◌, ◌<◌, List};
ghost use Rattle.meaning.specs.Limits.{terms, records};
ghost use Rattle.fewest.specs.Pairs.{pairs};
ghost use Rattle.fewest.specs.Work.{Tests};
ghost use Rattle.asked.specs.Serve.{Kept};
ghost use Rattle.asked.specs.Seek.{Bits, marks_in, MarkedIf, is_test, Onward, FollowedUp, Pursued};

use crate::follow::After;
use crate::mark::{arrive, mark_on};
use crate::words::only;
use fewest::look::allows;
use fewest::table::{ENTRIES, NUMBERS};
use records::Label;

// What follows at u is marked.
pub fn reach(asked: &mut [u8; ENTRIES], ends: &mut [u8], tail: &mut usize, next: After, u: usize)
    requires { Bits ends.old × (u < terms) }
    ensures { ((up role : List ℕ) (r : ℕ) → Onward up role r next → FollowedUp up role r u (marks_in asked.old ends.old) (marks_in asked.new ends.new)) × Kept asked.old asked.new }
{
    arrive(ends, next.home, u);
    mark_on(asked, tail, next.set, u);
}

// A test is asked at the middle; without one nothing is.
fn ask_test(asked: &mut [u8; ENTRIES], tail: &mut usize, label: Label, r: usize, middle: usize)
    requires { (r < records) × (middle < terms) × Tests label r }
    ensures { MarkedIf (is_test label) (r - 1) middle asked.old asked.new × Kept asked.old asked.new }
{
    if let Label::Test = label {
        mark_on(asked, tail, only(r - 1), middle);
    }
}

// For a step of record r or a star's empty round, from where its question is marked past the middle to u: the test is asked at the
// middle, and where the label allows that, the expression is done at u.
pub fn pursue(
    numbers: &[u8; NUMBERS],
    asked: &mut [u8; ENTRIES],
    ends: &mut [u8],
    tail: &mut usize,
    label: Label,
    r: usize,
    next: After,
    middle: usize,
    u: usize,
)
    requires { Bits ends.old × (r < records) × Tests label r × (middle < terms) × (u < terms) }
    ensures { ((up role : List ℕ) → Onward up role r next → Pursued up role (pairs numbers.now) label r middle u (marks_in asked.old ends.old) (marks_in asked.new ends.new)) × Kept asked.old asked.new }
{
    ask_test(asked, tail, label, r, middle);
    if allows(numbers, label, r, middle) {
        reach(asked, ends, tail, next, u);
    }
}
