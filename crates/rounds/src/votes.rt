// The vote of a posting: its rounds take it as 1 everywhere, and the column's own stays as it is.
#![tactic(auto, unfolding(agreement::specs::Rounds::vote_in, agreement::specs::Rounds::vote_after))]

ghost use Rattle.std.specs.Prelude.{◌≡◌};
ghost use Rattle.agreement.specs.Rounds.{vote_in, vote_after};

use protocols::Protocol;

// The vote that a round reads.
pub(super) fn vote_in(protocol: Protocol, vote: u8) -> u8
    ensures { result ≡ vote_in protocol vote }
{
    if protocols::posts(protocol) { 1 } else { vote }
}

// The vote after the second reports, which give `vote`, where it was `before`.
pub(super) fn vote_after(protocol: Protocol, before: u8, vote: u8) -> u8
    ensures { result ≡ vote_after protocol before vote }
{
    if protocols::posts(protocol) {
        before
    } else {
        vote
    }
}
