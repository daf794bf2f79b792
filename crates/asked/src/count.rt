// How many entries of a table of bits are marked: the figure, or the number of ends or starts.
// It is counted part by part, each in a byte, which the compiler turns into a few instructions for many entries.
ghost use Rattle.std.specs.Prelude.{◌≡◌, ◌≤◌, length};
ghost use Rattle.fewest.specs.Sweep.{sum};
ghost use Rattle.asked.specs.Count.{part};
ghost use Rattle.asked.specs.Seek.{Bits};

// So many bits a byte can count.
const PART: usize = 128;

// The number of ones of a part.
fn count_part(ones: &[u8]) -> u8
    requires { Bits ones.now × (length ones.now ≤ part) }
    ensures { result ≡ sum ones.now }
{
    let mut n = 0;
    for one in ones {
        n += *one;
    }
    n
}

// The number of ones: whole parts, then the rest. No `chunks`: of a part whose length is known the compiler takes many entries at once.
pub fn count(table: &[u8]) -> usize
    requires { Bits table.now }
    ensures { result ≡ sum table.now }
{
    let mut left = table;
    let mut n = 0;
    while let Some((ones, rest)) = left.split_first_chunk::<PART>() {
        n += usize::from(count_part(ones));
        left = rest;
    }
    n + usize::from(count_part(left))
}
