// The king rule on plain data: what a column proposes, how it votes after the proposals and whether the vote is firm, what the king
// says, and the vote after it. Votes and proposals received lie by column number, the own among them; each call answers every input.
#![tactic(auto)]

ghost use Rattle.std.specs.Prelude.{◌≡◌};
ghost use Rattle.messages.specs.Messages.{from, times};
ghost use Rattle.king.specs.King.{bits, chosen as chosen_of, proposal as proposal_of, settled as settled_of, firm as firm_of, word as word_of, crowned as crowned_of};

use field::Field;

// How often a bit was received; what is no bit never was.
#[tactic(auto, using(crate::proofs::Laws::times_bits, crate::proofs::Laws::times_none))]
fn received(n: u8, values: &[u16], bit: u8) -> usize
    ensures { result ≡ times (bits (from values.now)) bit n }
{
    if 1 < bit {
        return 0;
    }
    messages::times(n, values, bit as u16)
}

// The bit that was received at least `need` times, 1 if both were; `other` if none was.
#[tactic(auto, unfolding(crate::specs::King::chosen))]
fn chosen(n: u8, values: &[u16], need: usize, other: u16) -> u16
    ensures { result ≡ chosen_of n need (from values.now) other }
{
    if need <= received(n, values, 1) {
        return 1;
    }
    if need <= received(n, values, 0) {
        return 0;
    }
    other
}

// The proposal from the votes received: a bit received at least n - t times, else blank.
#[tactic(auto, unfolding(crate::specs::King::proposal), using(sizes::proofs::Laws::faults_le))]
pub fn proposal(n: u8, votes: [u16; 31]) -> u16
    ensures { result ≡ proposal_of n (from votes) }
{
    chosen(n, &votes, n as usize - sizes::faults(n), Field::BLANK)
}

// What the proposals give: a vote, and whether it is firm.
#[derive(Clone, Copy)]
pub struct Ballot {
    pub vote: u8,
    pub firm: bool,
}

// The vote after the proposals: a bit proposed at least t + 1 times, 1 if both were; else the vote as it was. It is firm where it was proposed at
// least n - t times.
#[tactic(auto, unfolding(crate::specs::King::settled, crate::specs::King::firm), using(sizes::proofs::Laws::faults_le, crate::proofs::Laws::chosen_lt))]
pub fn settled(n: u8, proposals: [u16; 31], vote: u8) -> Ballot
    ensures { (result.vote ≡ settled_of n (from proposals) vote) × (result.firm ≡ firm_of n (from proposals) (settled_of n (from proposals) vote)) }
{
    let t = sizes::faults(n);
    let quorum = n as usize - t;
    let after = chosen(n, &proposals, t + 1, vote as u16) as u8;
    Ballot {
        vote: after,
        firm: quorum <= received(n, &proposals, after),
    }
}

// What a column says in the king's round: the king its vote, the others blank.
#[tactic(auto, unfolding(crate::specs::King::word))]
pub fn word(king: u8, own: u8, vote: u8) -> u16
    ensures { result ≡ word_of king own vote }
{
    if own == king {
        vote as u16
    } else {
        Field::BLANK
    }
}

// The vote after the king spoke: a firm one stays, any other becomes the king's, or 0 if the king said nothing.
#[tactic(auto, unfolding(crate::specs::King::crowned), using(messages::proofs::Laws::bit_or_blank))]
pub fn crowned(firm: bool, vote: u8, word: u16) -> u8
    ensures { result ≡ crowned_of firm vote word }
{
    if firm {
        return vote;
    }
    match messages::read_bit(word) {
        Field::BLANK => 0,
        bit => bit as u8,
    }
}
