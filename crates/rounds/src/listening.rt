// What a column becomes by what it hears, by the kind of the round.
ghost use Rattle.std.specs.Prelude.{◌≡◌, length};
ghost use Rattle.agreement.specs.Rounds.{hears};
ghost use Rattle.rounds.specs.Ready.{Ready};

use super::{exchange, phases, post, reports, spreading};
use agreement::{Column, Stage};
use protocols::Kind;

// What the column has become after it listened in a round of the kind; it goes on to the stage `next`, unless the round ends the run.
#[tactic(auto, unfolding(agreement::specs::Rounds::hears))]
pub(super) fn hear(column: Column, kind: Kind, next: Stage, inbox: &[u16]) -> Column
    requires { Ready kind column (length inbox.now) }
    ensures { result ≡ hears kind next column inbox.now }
{
    match kind {
        Kind::Exchange => exchange::hear(column, next, inbox),
        Kind::FirstReport => reports::hear_first(column, next, inbox),
        Kind::SecondReport => reports::hear_second(column, next, inbox),
        Kind::Votes => phases::hear_votes(column, next, inbox),
        Kind::Proposals => phases::hear_proposals(column, next, inbox),
        Kind::King(king) => phases::hear_king(column, king, next, inbox),
        Kind::Points => spreading::hear_points(column, next, inbox),
        Kind::KeptPoints => spreading::hear_kept(column, inbox),
        Kind::Post(poster) => post::hear(column, poster, next, inbox),
    }
}
