// Sets of records as words in the lent byte table: four bytes, lowest first, and in them a bit for each record.
// The rest of the crate knows a set by its bits alone.
ghost use Rattle.std.specs.Prelude.{◌≡◌, ◌+◌, ◌^◌, ◌<◌, length};
ghost use Rattle.meaning.specs.Limits.{records};
ghost use Rattle.asked.specs.Words.{size, word, WordPut};

// A word has so many bytes.
pub const SIZE: usize = 4;

// The set of this record alone.
#[tactic(auto, unfolding(meaning::specs::Limits::records))]
pub fn only(r: usize) -> u32
    requires { r < records }
    ensures { result ≡ 2 ^ r }
{
    1 << r
}

// The set whose word begins at this place.
pub fn word(asked: &[u8], at: usize) -> u32
    requires { at + size < length asked.now + 1 }
    ensures { result ≡ word asked.now at }
{
    u32::from_le_bytes([asked[at], asked[at + 1], asked[at + 2], asked[at + 3]])
}

// The word that begins at this place takes a set.
pub fn put_word(asked: &mut [u8], at: usize, set: u32)
    requires { at + size < length asked.old + 1 }
    ensures { WordPut at set asked.old asked.new }
{
    asked[at..at + SIZE].copy_from_slice(&set.to_le_bytes());
}
