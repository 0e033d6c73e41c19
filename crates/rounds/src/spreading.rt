// Rounds 3t + 7 and 3t + 8 of an agreement, 5 and 6 of a posting: dissemination, and the end.
#![tactic(auto, using(sizes::proofs::Refusals::there, sizes::proofs::Refusals::got, messages::proofs::Laws::if_done, crate::specs::Ready::points_said, crate::specs::Ready::points_heard), unfolding(agreement::specs::Rounds::hears, crate::specs::Rounds::to_columns, protocols::specs::Protocols::width, agreement::specs::Rounds::message, agreement::specs::Rounds::votes_one, agreement::specs::Rounds::spreads, messages::specs::Messages::to_all, dissemination::specs::Dissemination::points_to_all))]

ghost use Rattle.std.specs.Prelude.{◌≡◌, length};
ghost use Rattle.protocols.specs.declared.Kind.TheVariants.{Points, KeptPoints};
ghost use Rattle.agreement.specs.declared.Stage.TheVariants.{Ended};
ghost use Rattle.agreement.specs.Parts.{with_stage};
ghost use Rattle.agreement.specs.Rounds.{votes_one, spreads as spreads_of, outcome_of, ends_on, hears};
ghost use Rattle.rounds.specs.Rounds.{to_columns};
ghost use Rattle.rounds.specs.Ready.{Ready};

use super::votes::vote_in;
use agreement::{Column, Outcome, Stage};

// The vote that the rounds read is 1.
fn votes_one(column: Column) -> bool
    ensures { result ≡ votes_one column }
{
    vote_in(column.protocol, column.vote) == 1
}

// With vote 1 and grade 1 or 2 the column spreads its record.
fn spreads(column: Column) -> bool
    ensures { result ≡ spreads_of column }
{
    votes_one(column) && 1 <= column.grade
}

// To each column its points.
pub(super) fn say_points(column: Column, out: &mut [u16])
    requires { Ready Points column (length out.old) }
    ensures { out.new ≡ to_columns Points column }
{
    dissemination::points::send(column.n, column.m, spreads(column), column.bytes, out).unwrap();
}

// The points that came often are kept.
pub(super) fn hear_points(column: Column, next: Stage, inbox: &[u16]) -> Column
    requires { Ready Points column (length inbox.now) }
    ensures { result ≡ hears Points next column inbox.now }
{
    let kept = dissemination::points::kept(
        column.n,
        column.m,
        column.own,
        spreads(column),
        column.bytes,
        inbox,
    )
    .unwrap();
    Column {
        kept,
        stage: next,
        ..column
    }
}

// The kept points to all, with vote 1.
pub(super) fn say_kept(column: Column, out: &mut [u16])
    requires { Ready KeptPoints column (length out.old) }
    ensures { out.new ≡ to_columns KeptPoints column }
{
    dissemination::decoding::send(column.n, column.m, votes_one(column), column.kept, out).unwrap();
}

// A column that ended.
fn ended(column: Column, outcome: Outcome) -> Column
    ensures { result ≡ with_stage (Ended outcome) column }
{
    Column {
        stage: Stage::Ended(outcome),
        ..column
    }
}

// The end: on the record that the kept points decode to, or on none, as with vote 0.
pub(super) fn hear_kept(column: Column, inbox: &[u16]) -> Column
    requires { Ready KeptPoints column (length inbox.now) }
    ensures { result ≡ ends_on (outcome_of column inbox.now) column }
{
    if !votes_one(column) {
        return ended(column, Outcome::Nothing);
    }
    let decoded = dissemination::decoding::decode(
        column.n,
        column.m,
        column.own,
        true,
        column.kept,
        inbox,
    );
    match decoded.unwrap() {
        None => ended(column, Outcome::Nothing),
        Some(bytes) => ended(Column { bytes, ..column }, Outcome::Record),
    }
}
