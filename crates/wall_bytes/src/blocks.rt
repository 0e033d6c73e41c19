// The decoder on plain slices.
ghost use Rattle.std.specs.Prelude.{◌≡◌};
ghost use Rattle.sizes.specs.Refusals.{number_in};
ghost use Rattle.decoder.specs.Decoder.{found_in};
ghost use Rattle.column_bytes.specs.Calls.{narrow as narrow_of};
ghost use Rattle.wall_bytes.specs.Calls.{coefficients_of, block_answer, block_out};

use column_bytes::numbers::narrow;
use decoder::Coefficients;
use field::Field;
use sizes::numbers::{Refusal, number_in};

// The four coefficients of a polynomial, or four blanks.
#[tactic(auto, unfolding(crate::specs::Calls::coefficients_of))]
fn coefficients(found: Option<Coefficients>) -> [u16; 4]
    ensures { result ≡ coefficients_of (found_in found) }
{
    match found {
        Some(c) => [c.c0, c.c1, c.c2, c.c3],
        None => [Field::BLANK; 4],
    }
}

// Decodes n points and writes what was found.
fn decode(n: u8, points: &[u16], out: &mut [u16]) -> Result<(), Refusal>
    ensures { (number_in result ≡ block_answer n points.now out.old) × (out.new ≡ block_out n points.now out.old) }
{
    let found = decoder::decode(n, points)?;
    messages::refusal(1, 4, out.len())?;
    messages::write(4, &coefficients(found), out)
}

// Decodes n points, by column number, and writes four coefficients, or four blanks where no polynomial meets enough of them: `decoder::decode`. Refused
// with 1, then with 4 for a slice not of n points or one for the answer not of four values.
pub fn column_decode(n: u32, points: &[u16], out: &mut [u16]) -> u8
    ensures { (result ≡ block_answer (narrow_of n) points.now out.old) × (out.new ≡ block_out (narrow_of n) points.now out.old) }
{
    number_in(decode(narrow(n), points, out))
}
