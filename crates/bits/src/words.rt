// A frame's number of 256 bits in four words, the first the most significant: how a frame is put together, one
// field behind the other, where nothing is copied for a field.
ghost use Rattle.std.specs.Prelude.{◌≡◌, ◌<◌};
ghost use Rattle.bits.specs.Frame.{bytes_of, copied_into};
ghost use Rattle.bits.specs.Words.{carried, pushed, pushed_until, value_of, words_of};

use lent::put_bytes;

#[derive(Clone, Copy)]
pub struct Words {
    pub first: u64,
    pub second: u64,
    pub third: u64,
    pub last: u64,
}

// A word moved up by so many bits, with those that leave the word behind it.
fn carry(high: u64, low: u64, width: usize) -> u64
    requires { (0 < width) × (width < 64) }
    ensures { result ≡ carried high low width }
{
    (high << width) | (low >> (64 - width))
}

impl Words {
    pub fn of(first: u64) -> Words
        ensures { result ≡ words_of first }
    {
        Words {
            first: 0,
            second: 0,
            third: 0,
            last: first,
        }
    }

    // One field behind all that stands. A width counts up to 63 bits, and a field without bits leaves the words as
    // they are; a value is one of so many bits.
    pub fn push(self, width: usize, value: u64) -> Words
        ensures { result ≡ pushed self width value }
    {
        let bits = width % 64;
        if bits == 0 {
            return self;
        }
        Words {
            first: carry(self.first, self.second, bits),
            second: carry(self.second, self.third, bits),
            third: carry(self.third, self.last, bits),
            last: (self.last << bits) | value,
        }
    }

    // The 32 bytes of the number, into a lent slice; a slice of another length stays as it was.
    pub fn put(self, out: &mut [u8])
        ensures { out.new ≡ copied_into (bytes_of (value_of self)) out.old }
    {
        if out.len() == 32 {
            let second = put_bytes(out, 0, &self.first.to_be_bytes());
            let third = put_bytes(out, second, &self.second.to_be_bytes());
            let last = put_bytes(out, third, &self.third.to_be_bytes());
            put_bytes(out, last, &self.last.to_be_bytes());
        }
    }
}

// Values pushed one behind the other, each in its width, up to the first that has no bits.
pub fn push_all(words: Words, widths: &[u8], values: &[u64]) -> Words
    ensures { result ≡ pushed_until words widths.now values.now }
{
    let mut next = words;
    for k in 0..widths.len().min(values.len()) {
        let bits = usize::from(widths[k]) % 64;
        if bits == 0 {
            return next;
        }
        next = next.push(bits, values[k]);
    }
    next
}
