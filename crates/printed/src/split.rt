// The parts of an input: leading site records, then the rule, and the query record in its last five bytes.
ghost use Rattle.std.specs.Prelude.{◌≤◌, ◌≡◌, true, length};
ghost use Rattle.printed.specs.Input.{SiteEnds, Splits};

use records::site::{TRIPLE_KIND, TRIPLE_WIDTH};
use records::{Reason, Refusal};

// The most bytes of an input.
pub const INPUT_MOST: usize = 8192;

// A query record's first byte, and its length.
const QUERY_KIND: u8 = 20;

pub const QUERY_WIDTH: usize = 5;

// Where the site's records end and the rule begins, and the query's terms.
#[derive(Clone, Copy, Debug, PartialEq, Eq)]
pub struct Parts {
    pub rule: usize,
    pub start: u32,
    pub end: u32,
}

// Where the leading records of kind 10 end, a last cut one included.
fn site_end(front: &[u8]) -> usize
    ensures { SiteEnds front.now 0 result × (result ≤ length front.now) }
{
    for at in (0..front.len()).step_by(TRIPLE_WIDTH) {
        if front[at] != TRIPLE_KIND {
            return at;
        }
    }
    front.len()
}

// Refusal 16: the input is too long, or its last bytes are no query record.
const NO_QUERY: Refusal = Refusal {
    reason: Reason::Input,
    place: 0,
};

// The parts of an input, or refusal 16.
pub fn split(input: &[u8]) -> Result<Parts, Refusal>
    ensures { Splits input.now result }
{
    let Some((ahead, query)) = input.split_last_chunk::<QUERY_WIDTH>() else {
        return Err(NO_QUERY);
    };
    let [kind, start_high, start_low, end_high, end_low] = *query;
    if INPUT_MOST < input.len() || kind != QUERY_KIND {
        return Err(NO_QUERY);
    }
    Ok(Parts {
        rule: site_end(ahead),
        start: u32::from(u16::from_be_bytes([start_high, start_low])),
        end: u32::from(u16::from_be_bytes([end_high, end_low])),
    })
}
