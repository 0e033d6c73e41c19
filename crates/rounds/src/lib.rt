// One round of a column, by the round's kind: what it says to each column, and what it becomes by what it hears. Which round is of which kind,
// and whose turn it is, is for the calls above to say.
#![tactic(auto)]

mod exchange;
mod listening;
mod phases;
mod post;
mod reports;
mod speaking;
mod spreading;
mod votes;
mod words;

ghost use Rattle.std.specs.Prelude.{◌≡◌, length};
ghost use Rattle.messages.specs.Messages.{unless_refused};
ghost use Rattle.sizes.specs.Refusals.{number_in};
ghost use Rattle.agreement.specs.Answers.{answered_in};
ghost use Rattle.rounds.specs.Rounds.{to_columns, round_refusal, heard_in};

use agreement::{Column, Stage};
use protocols::Kind;
use sizes::numbers::Refusal;

// The refusal of a column with a slice of `len` values: 1, 2, 3 for the sizes and the own number, 4 for the length.
#[tactic(auto, unfolding(crate::specs::Rounds::round_refusal))]
fn refusal(kind: Kind, column: Column, len: usize) -> Result<(), Refusal>
    ensures { number_in result ≡ round_refusal kind column len }
{
    sizes::refusal(column.n, column.m, column.own)?;
    messages::refusal(column.n, protocols::width(kind, column.n, column.m), len)
}

// Writes to each column what the column says to it in a round of the kind. Refused with 1, 2, 3 for the sizes and the own number, with 4 for
// a slice of another length; then nothing is written.
#[tactic(auto, using(crate::specs::Ready::ready, messages::proofs::Laws::if_refused, messages::proofs::Laws::if_done))]
pub fn say(kind: Kind, column: Column, out: &mut [u16]) -> Result<(), Refusal>
    ensures { (number_in result ≡ round_refusal kind column (length out.old))
        × (out.new ≡ unless_refused (round_refusal kind column (length out.old)) (to_columns kind column) out.old) }
{
    refusal(kind, column, out.len())?;
    speaking::say(column, kind, out);
    Ok(())
}

// What the column has become after it listened in a round of the kind; it goes on to the stage `next`, unless the round ends the run. Refused as
// in `say`.
pub fn hear(kind: Kind, next: Stage, column: Column, inbox: &[u16]) -> Result<Column, Refusal>
    ensures { answered_in result column ≡ heard_in kind next column inbox.now }
{
    refusal(kind, column, inbox.len())?;
    Ok(listening::hear(column, kind, next, inbox))
}
