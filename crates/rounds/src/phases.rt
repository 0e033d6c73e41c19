// Rounds 4 to 3t + 6 of an agreement: the king rule, three rounds a phase.
#![tactic(auto, unfolding(agreement::specs::Rounds::hears, agreement::specs::Rounds::received, agreement::specs::Rounds::message, agreement::specs::Rounds::king_said, agreement::specs::Rounds::resettled))]

ghost use Rattle.std.specs.Prelude.{◌≡◌};
ghost use Rattle.protocols.specs.declared.Kind.TheVariants.{Votes, Proposals, King};
ghost use Rattle.agreement.specs.Rounds.{king_said, hears};

use super::words::received;
use agreement::{Column, Stage};

// The votes give the proposal.
pub(super) fn hear_votes(column: Column, next: Stage, inbox: &[u16]) -> Column
    ensures { result ≡ hears Votes next column inbox.now }
{
    let votes = received(column.n, column.own, column.vote as u16, inbox);
    Column {
        proposal: king::proposal(column.n, votes),
        stage: next,
        ..column
    }
}

// The proposals settle the vote, and say whether it is firm.
pub(super) fn hear_proposals(column: Column, next: Stage, inbox: &[u16]) -> Column
    ensures { result ≡ hears Proposals next column inbox.now }
{
    let proposals = received(column.n, column.own, column.proposal, inbox);
    let ballot = king::settled(column.n, proposals, column.vote);
    Column {
        vote: ballot.vote,
        firm: ballot.firm,
        stage: next,
        ..column
    }
}

// What the king said; at the king itself what it would send.
fn king_said(column: Column, king: u8, inbox: &[u16]) -> u16
    ensures { result ≡ king_said king column inbox.now }
{
    let mine = king::word(king, column.own, column.vote);
    messages::heard(column.own, &[mine], 1, inbox, king, 0)
}

// A vote that is not firm becomes the king's.
pub(super) fn hear_king(column: Column, king: u8, next: Stage, inbox: &[u16]) -> Column
    ensures { result ≡ hears (King king) next column inbox.now }
{
    let said = king_said(column, king, inbox);
    Column {
        vote: king::crowned(column.firm, column.vote, said),
        stage: next,
        ..column
    }
}
