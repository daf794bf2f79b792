// Numbers as they stand in the bytes of a record, and which of them are terms.
ghost use Rattle.std.specs.Prelude.{◌≡◌, ◌+◌, ◌<◌, ltb, length, get_or};
ghost use Rattle.meaning.specs.Limits.{terms};
ghost use Rattle.records.specs.Bytes.{base, number16, number64};

use crate::TERMS;

// The base of bytes; how many terms there are is another number.
pub const BASE: usize = 256;

// How many numbers two bytes can be, and four.
pub const TWO_BYTES: usize = BASE * BASE;

pub const FOUR_BYTES: usize = TWO_BYTES * TWO_BYTES;

// The byte at a place, as a number.
pub fn byte_at(s: &[u8], at: usize) -> usize
    requires { at < length s.now }
    ensures { (result ≡ get_or s.now at 0) × (result < base) }
{
    usize::from(s[at])
}

// The byte that stands `by` bytes after a place; 0 past the end.
pub fn byte_after(s: &[u8], at: usize, by: usize) -> usize
    ensures { (result ≡ get_or s.now (at + by) 0) × (result < base) }
{
    if s.len() <= at || s.len() - at <= by {
        return 0;
    }
    usize::from(s[at + by])
}

// The two bytes at a place, high byte first.
#[tactic(auto, unfolding(crate::specs::Bytes::number16))]
pub fn number_at(s: &[u8], at: usize) -> usize
    requires { at + 1 < length s.now }
    ensures { result ≡ number16 s.now at }
{
    usize::from(u16::from_be_bytes([s[at], s[at + 1]]))
}

// The eight bytes at a place, high byte first.
#[tactic(auto, unfolding(crate::specs::Bytes::number64, crate::specs::Bytes::number32, crate::specs::Bytes::number16))]
pub fn eight_at(s: &[u8], at: usize) -> usize
    requires { at + 7 < length s.now }
    ensures { result ≡ number64 s.now at }
{
    usize::from_be_bytes(s[at..at + 8].try_into().unwrap())
}

// The number is one of the terms.
#[tactic(auto, unfolding(meaning::specs::Limits::terms))]
pub fn is_term(number: usize) -> bool
    ensures { result ≡ ltb number terms }
{
    number < TERMS
}
