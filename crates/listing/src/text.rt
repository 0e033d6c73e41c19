// A text that is written to a lent slice, one part after the other. Each call puts its part behind what stands there, as far as there is
// room.
ghost use Rattle.std.specs.Prelude.{◌≡◌, [], ◌∷◌};
ghost use Rattle.listing.specs.Listing.{digit, decimal, named, hex_digit, hex, hexes};
ghost use Rattle.listing.specs.Writing.{Puts};

// The slice, and the place behind the text.
#[derive(Drop)]
pub(super) struct Text<'a> {
    pub(super) out: &'a mut [u8],
    pub(super) at: usize,
}

impl Text<'_> {
    // One byte; past the end nothing.
    fn put_byte(&mut self, byte: u8)
        ensures { Puts (byte ∷ []) self.old self.new }
    {
        if self.at < self.out.len() {
            self.out[self.at] = byte;
            self.at += 1;
        }
    }

    // A word.
    pub(super) fn put(&mut self, word: &[u8])
        ensures { Puts word.now self.old self.new }
    {
        for byte in word {
            self.put_byte(*byte);
        }
    }

    // The last decimal digit of a number.
    #[tactic(auto, unfolding(crate::specs::Listing::digit))]
    fn put_digit(&mut self, v: usize)
        ensures { Puts (digit v ∷ []) self.old self.new }
    {
        self.put_byte(48 + (v % 10) as u8);
    }

    // A number of one to three digits.
    pub(super) fn put_decimal(&mut self, v: usize)
        ensures { Puts (decimal v) self.old self.new }
    {
        if v >= 100 {
            self.put_digit(v / 100);
        }
        if v >= 10 {
            self.put_digit(v / 10);
        }
        self.put_digit(v);
    }

    // A word, then a number.
    #[tactic(auto, using(crate::specs::Writing::puts_more), unfolding(crate::specs::Listing::named))]
    pub(super) fn put_named(&mut self, word: &[u8], v: usize)
        ensures { Puts (named word.now v) self.old self.new }
    {
        self.put(word);
        self.put_decimal(v);
    }

    // A byte as two hexadecimal digits.
    fn put_hex(&mut self, byte: u8)
        ensures { Puts (hex byte) self.old self.new }
    {
        self.put_byte(hex_digit(byte / 16));
        self.put_byte(hex_digit(byte));
    }

    // The first m bytes of a record; by index, since 0 stands for what it does not have.
    pub(super) fn put_hexes(&mut self, m: u8, bytes: &[u8])
        ensures { Puts (hexes m bytes.now) self.old self.new }
    {
        for p in 0..m {
            self.put_hex(messages::byte(bytes, p as usize));
        }
    }
}

// The last hexadecimal digit of a number, in lower case.
#[tactic(auto, unfolding(crate::specs::Listing::hex_digit))]
fn hex_digit(v: u8) -> u8
    ensures { result ≡ hex_digit v }
{
    let low = v % 16;
    if low < 10 {
        return 48 + low;
    }
    87 + low
}
