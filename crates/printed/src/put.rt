// Bytes, words and numbers put behind each other, at the front of a buffer.
ghost use Rattle.std.specs.Prelude.{◌≤◌, length};

use itoa::Buffer;

// A text of at most `MOST` bytes: so many, at the front. No String: `print` cannot fail, and takes no heap.
#[derive(Clone, Copy)]
pub struct Text<const MOST: usize> {
    pub bytes: [u8; MOST],
    pub count: usize,
    ghost fits: { count ≤ length bytes },
}

impl<const MOST: usize> Text<MOST> {
    ghost use Rattle.std.specs.Prelude.{◌≡◌, ◌∷◌, [], length};
    ghost use Rattle.printed.specs.Put.{said, Put, HasRoom};
    ghost use Rattle.printed.specs.Lines.{decimal, field};

    // No text yet.
    pub fn new() -> Self
        ensures { result.count ≡ 0 }
    {
        Text {
            bytes: [0; MOST],
            count: 0,
        }
    }

    // All of the text.
    pub fn as_slice(&self) -> &[u8]
        ensures { result.now ≡ said self.now }
    {
        &self.bytes[..self.count]
    }

    pub fn put_word(&mut self, word: &[u8])
        requires { HasRoom (length word.now) self.old }
        ensures { Put word.now self.old self.new }
    {
        let end = self.count + word.len();
        let bytes = &mut self.bytes[..];
        bytes[self.count..end].copy_from_slice(word);
        self.count = end;
    }

    fn put_byte(&mut self, byte: u8)
        requires { HasRoom 1 self.old }
        ensures { Put (byte ∷ []) self.old self.new }
    {
        self.put_word(&[byte]);
    }

    // In decimal.
    #[tactic(auto, using(crate::proofs::Digits::decimal_std))]
    fn put_number(&mut self, n: usize)
        requires { HasRoom (length (decimal n)) self.old }
        ensures { Put (decimal n) self.old self.new }
    {
        let mut digits = Buffer::new();
        self.put_word(digits.format(n).as_bytes());
    }

    // A number, and the byte that stands behind it.
    #[tactic(auto, using(crate::proofs::Putting::put_then, crate::proofs::Lengths::field_long), unfolding(crate::specs::Lines::field))]
    pub fn put_field(&mut self, n: usize, mark: u8)
        requires { HasRoom (length (field n mark)) self.old }
        ensures { Put (field n mark) self.old self.new }
    {
        self.put_number(n);
        self.put_byte(mark);
    }
}
