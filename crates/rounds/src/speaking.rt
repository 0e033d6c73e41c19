// What a column says to each column, by the kind of the round.
ghost use Rattle.std.specs.Prelude.{◌≡◌, length};
ghost use Rattle.rounds.specs.Rounds.{to_columns};
ghost use Rattle.rounds.specs.Ready.{Ready};

use super::{exchange, post, spreading, words};
use agreement::Column;
use protocols::Kind;

// Writes to each column what the column says to it in a round of the kind.
#[tactic(auto, using(crate::specs::Ready::word_accepted), unfolding(crate::specs::Rounds::to_columns, agreement::specs::Rounds::message, protocols::specs::Protocols::width, messages::specs::Messages::to_all))]
pub(super) fn say(column: Column, kind: Kind, out: &mut [u16])
    requires { Ready kind column (length out.old) }
    ensures { out.new ≡ to_columns kind column }
{
    match kind {
        Kind::Exchange => exchange::say(column, out),
        Kind::FirstReport => words::say(column.n, words::first_report(column), out),
        Kind::SecondReport => words::say(column.n, words::second_report(column), out),
        Kind::Votes => words::say(column.n, column.vote as u16, out),
        Kind::Proposals => words::say(column.n, column.proposal, out),
        Kind::King(king) => words::say(column.n, king::word(king, column.own, column.vote), out),
        Kind::Points => spreading::say_points(column, out),
        Kind::KeptPoints => spreading::say_kept(column, out),
        Kind::Post(poster) => post::say(column, poster, out),
    }
}
