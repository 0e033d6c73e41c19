// The rounds of one value, a report, a vote, a proposal or the king's word: what a column says to all, itself included, and what it
// hears of each.
ghost use Rattle.std.specs.Prelude.{◌≡◌, [], ◌∷◌, length};
ghost use Rattle.messages.specs.Messages.{to_all, to_all_refusal, heard_of_all};
ghost use Rattle.dispersal.specs.Dispersal.{agrees, first_report, reported, second_report};

use agreement::Column;

// The first report, from the agreements.
pub(super) fn first_report(column: Column) -> u16
    ensures { result ≡ first_report column.n (agrees column.agreements) }
{
    dispersal::reports::first(column.n, column.agreements)
}

// The second report, from the agreements and the first reports that came.
pub(super) fn second_report(column: Column) -> u16
    ensures { result ≡ second_report column.n column.own (agrees column.agreements) (reported column.reports) }
{
    dispersal::reports::second(column.n, column.own, column.agreements, column.reports)
}

// Says a word to all.
#[tactic(auto, using(sizes::proofs::Refusals::there, messages::proofs::Laws::if_done))]
pub(super) fn say(n: u8, word: u16, out: &mut [u16])
    requires { to_all_refusal n 1 (length out.old) ≡ 0 }
    ensures { out.new ≡ to_all n 1 (word ∷ []) }
{
    messages::to_all(n, 1, &[word], out).unwrap();
}

// What is heard of all, where `word` is the own.
pub(super) fn received(n: u8, own: u8, word: u16, inbox: &[u16]) -> [u16; 31]
    ensures { result ≡ heard_of_all n own (word ∷ []) 1 inbox.now 0 }
{
    messages::heard_of_all(n, own, &[word], 1, inbox, 0)
}
