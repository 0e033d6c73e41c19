// Data dissemination on plain data: Protocol 3.8. `points` is its first round, with the points that are kept; `decoding` the second,
// with the record that comes of it.
#![tactic(auto)]

pub mod decoding;
pub mod points;

ghost use Rattle.std.specs.Prelude.{◌≡◌};
ghost use Rattle.lists.specs.Lists.{list_of};
ghost use Rattle.sizes.specs.Refusals.{number_in};
ghost use Rattle.dissemination.specs.Dissemination.{round_refusal};
ghost use Rattle.dissemination.specs.Laws.{silenced, read_at};

use field::Field;
use sizes::numbers::Refusal;
use std::array;

// The refusal of a call on a slice of B values a column: 1, 2, 3 for the sizes and the own number, 4 for its length.
fn refusal(n: u8, m: u8, own: u8, len: usize) -> Result<(), Refusal>
    ensures { number_in result ≡ round_refusal n m own len }
{
    sizes::refusal(n, m, own)?;
    messages::refusal(n, sizes::blocks(n, m) as u16, len)
}

// The values, or blanks where the column does not speak.
#[tactic(auto, unfolding(crate::specs::Laws::silenced))]
fn silenced_unless(speaks: bool, values: [u16; 32]) -> [u16; 32]
    ensures { result ≡ silenced speaks values }
{
    if speaks { values } else { [Field::BLANK; 32] }
}

// The values read as points.
fn read_points(values: [u16; 31]) -> [u16; 31]
    ensures { result ≡ list_of (read_at values) 31 }
{
    array::from_fn(|i| messages::read_point(messages::value(&values, i)))
}
