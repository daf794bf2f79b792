// Numbers as byte pairs in a lent table, high byte first as its lender reads them. Everything above is said of the list of numbers.
ghost use Rattle.std.specs.Prelude.{◌≡◌, ◌+◌, ◌*◌, ◌<◌, length, get_or, set};
ghost use Rattle.records.specs.Bytes.{base};
ghost use Rattle.fewest.specs.Pairs.{pairs};

pub fn get(table: &[u8], i: usize) -> usize
    requires { i + i + 1 < length table.now }
    ensures { (result ≡ get_or (pairs table.now) i 0) × (result < base * base) }
{
    usize::from(u16::from_be_bytes([table[i + i], table[i + i + 1]]))
}

pub fn put(table: &mut [u8], i: usize, v: usize)
    requires { (i + i + 1 < length table.old) × (v < base * base) }
    ensures { pairs table.new ≡ set (pairs table.old) i v }
{
    let [high, low] = (v as u16).to_be_bytes();
    table[i + i] = high;
    table[i + i + 1] = low;
}
