// Entries as bytes, one after the other.
ghost use Rattle.std.specs.Prelude.{◌≡◌};
ghost use Rattle.sizes.specs.Refusals.{number_in};
ghost use Rattle.wall_bytes.specs.Calls.{places as places_of, wall_answer, wall_row};

use protocols::Protocol;
use sizes::numbers::Refusal;
use state_bytes::entries::{self, SIZE};

// How many entries a slice holds: none where it ends within one.
#[tactic(auto, unfolding(crate::specs::Calls::places))]
fn places(row: &[u8]) -> usize
    ensures { result ≡ places_of row.now }
{
    if row.len() % SIZE == 0 {
        row.len() / SIZE
    } else {
        0
    }
}

// Runs the wall that a sheet describes and writes the entries.
pub(super) fn run(protocol: Protocol, sheet: &[u8], row: &mut [u8]) -> Result<(), Refusal>
    ensures { (number_in result ≡ wall_answer protocol sheet.now row.old) × (row.new ≡ wall_row protocol sheet.now row.old) }
{
    let n = places(row);
    let all = wall_run::outcomes_of(protocol, sheet, n)?;
    // By index: what `chunks_exact_mut` lends is not known behind the loop.
    for i in 0..n {
        entries::put(all[i], &mut row[SIZE * i..]);
    }
    Ok(())
}
