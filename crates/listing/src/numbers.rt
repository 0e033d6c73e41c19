// The poster's number as a program is told it, in decimal digits.
ghost use Rattle.std.specs.Prelude.{◌≡◌, length};
ghost use Rattle.listing.specs.Number.{with_digit, read_to, number, number_in};

// A number with one digit more; none where the letter is no digit or the number no byte.
fn with_digit(v: u8, letter: u8) -> Option<u8>
    ensures { number_in result ≡ with_digit v letter }
{
    if !letter.is_ascii_digit() {
        return None;
    }
    v.checked_mul(10)?.checked_add(letter - b'0')
}

// What a text says, read from left to right; none where it is no number.
fn read(text: &[u8]) -> Option<u8>
    ensures { number_in result ≡ read_to text.now (length text.now) }
{
    let mut v = 0;
    for letter in text {
        v = with_digit(v, *letter)?;
    }
    Some(v)
}

// The poster's number as a program is told it: a decimal number up to 255; 0, which is no column, for every other text.
pub fn poster_of(text: &[u8]) -> u8
    ensures { result ≡ number text.now }
{
    read(text).unwrap_or(0)
}
