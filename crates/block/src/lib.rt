// A block as a polynomial over the field, its first coefficient the constant term. A polynomial here has up to four coefficients, for no wall has
// more in a block. Its value goes by recursion over them; it is asked for at one point, or at the points 1 to 32 at once.
#![tactic(auto)]

ghost use Rattle.std.specs.Prelude.{◌≡◌, get_or};
ghost use Rattle.lists.specs.Lists.{list_of};
ghost use Rattle.field.specs.Field.{element, of};
ghost use Rattle.block.specs.Block.{part, value as value_of, word_at};
ghost use Rattle.block.specs.Value.{behind as behind_of};

use field::Field;

// Coefficient i; 0 past the last one.
fn coefficient(c: &[u16], i: usize) -> Field
    ensures { result ≡ element (of (get_or c.now i 0)) }
{
    Field::of(c.get(i).copied().unwrap_or(0))
}

// The value at x of a polynomial that has the first `count` coefficients in front of a rest, where the rest has the value `rest`: the last of them
// plus x times `rest` is the value of a longer rest, with one coefficient less in front of it. By recursion: a fold is a twentieth slower.
#[tactic(auto, using(crate::proofs::Values::behind_none, crate::proofs::Values::behind_more))]
fn behind(c: &[u16; 4], count: u8, x: u16, rest: u16) -> u16
    ensures { result ≡ behind_of (part c.now 0 count) x rest }
{
    if count == 0 {
        return rest;
    }
    let last = coefficient(c, (count - 1) as usize);
    let longer = Field::add_product(last, Field(x), Field(rest));
    behind(c, count - 1, x, longer.0)
}

// The value at x of the polynomial of the first `count` coefficients.
#[tactic(auto, using(crate::proofs::Values::behind_zero))]
pub fn value(c: &[u16; 4], count: u8, x: Field) -> Field
    ensures { result ≡ element (value_of (part c.now 0 count) x.0) }
{
    Field(behind(c, count, x.0, 0))
}

// Its values at the points 1 to 32. With a literal for the count the machine does eight points at a time.
pub fn word(c: &[u16; 4], count: u8) -> [u16; 32]
    ensures { result ≡ list_of (word_at (part c.now 0 count)) 32 }
{
    let mut values = [0u16; 32];
    for (i, v) in values.iter_mut().enumerate() {
        *v = behind(c, count, i as u16 + 1, 0);
    }
    values
}
