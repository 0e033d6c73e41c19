// The protocols that a column runs. Each is its rounds, told once, by kind; what a round's messages are follows from its kind. Each function
// answers every byte; which are no sizes, `sizes::refusal` says.
#![tactic(auto)]

ghost use Rattle.std.specs.Prelude.{◌≡◌, ◌+◌, ◌*◌, ◌/◌, ◌%◌, ◌≤◌, ◌<◌, get_or};
ghost use Rattle.sizes.specs.Sizes.{blocks as blocks_of};
ghost use Rattle.protocols.specs.declared.Protocol.TheVariants.{Agreement, Posting};
ghost use Rattle.protocols.specs.declared.Kind.TheVariants.{KeptPoints};
ghost use Rattle.protocols.specs.Protocols.{width as width_of, phase, rounds_in, kind_in, values_in, line_in, beside as beside_of, posts as posts_of, number_of, protocol_of};

// What a wall runs: an agreement, Protocol 3.14, or a posting by the column of this number, Protocol 3.11.
#[derive(Clone, Copy)]
pub enum Protocol {
    Agreement,
    Posting(u8),
}

// The kinds of rounds. In a king's round the king is one column, and in the first round of a posting the poster.
#[derive(Clone, Copy)]
pub enum Kind {
    Exchange,
    FirstReport,
    SecondReport,
    Votes,
    Proposals,
    King(u8),
    Points,
    KeptPoints,
    Post(u8),
}

// The blocks of a record, as values are counted.
#[tactic(auto, using(sizes::proofs::Laws::blocks_le))]
fn blocks(n: u8, m: u8) -> u16
    ensures { (result ≡ blocks_of n m) × (result ≤ 255) }
{
    sizes::blocks(n, m) as u16
}

// The values of a message in a round of the kind.
#[tactic(auto, unfolding(crate::specs::Protocols::width))]
pub fn width(kind: Kind, n: u8, m: u8) -> u16
    ensures { result ≡ width_of n m kind }
{
    match kind {
        Kind::Exchange => 2 * blocks(n, m),
        Kind::Points | Kind::KeptPoints => blocks(n, m),
        Kind::Post(_) => m as u16,
        _ => 1,
    }
}

// The rounds of a run.
#[tactic(auto, using(sizes::proofs::Laws::faults_le, crate::proofs::Laws::rounds_agreement, crate::proofs::Laws::rounds_posting))]
pub fn rounds_in(protocol: Protocol, n: u8) -> usize
    ensures { result ≡ rounds_in protocol n }
{
    match protocol {
        Protocol::Agreement => 3 * sizes::faults(n) + 8,
        Protocol::Posting(_) => 6,
    }
}

// The round of a phase that follows q others of all phases.
#[tactic(auto, unfolding(crate::specs::Protocols::phase))]
fn king_round(q: u8) -> Kind
    ensures { result ≡ get_or (phase (q / 3 + 1)) (q % 3) KeptPoints }
{
    match q % 3 {
        0 => Kind::Votes,
        1 => Kind::Proposals,
        _ => Kind::King(q / 3 + 1),
    }
}

// The kind of a round of an agreement, where a run has `last` rounds.
#[tactic(auto, unfolding(crate::specs::Protocols::kind_in, crate::specs::Protocols::kinds), using(crate::proofs::Laws::round_phase, crate::proofs::Laws::round_points, crate::proofs::Laws::round_kept))]
fn agreement_kind(n: u8, last: usize, round: u8) -> Kind
    requires { last ≡ rounds_in Agreement n }
    ensures { result ≡ kind_in Agreement n round }
{
    let next = round as usize + 1;
    match round {
        0..=1 => Kind::Exchange,
        2 => Kind::FirstReport,
        3 => Kind::SecondReport,
        _ if next < last => king_round(round - 4),
        _ if next == last => Kind::Points,
        _ => Kind::KeptPoints,
    }
}

// The kind of a round of a posting.
#[tactic(auto, unfolding(crate::specs::Protocols::kind_in, crate::specs::Protocols::kinds))]
fn posting_kind(s: u8, n: u8, round: u8) -> Kind
    ensures { result ≡ kind_in (Posting s) n round }
{
    match round {
        0..=1 => Kind::Post(s),
        2 => Kind::Exchange,
        3 => Kind::FirstReport,
        4 => Kind::SecondReport,
        5 => Kind::Points,
        _ => Kind::KeptPoints,
    }
}

// The kind of a round of a run of `last` rounds: whoever asks has counted them, and t is found once.
fn kind_of(protocol: Protocol, n: u8, last: usize, round: u8) -> Kind
    requires { last ≡ rounds_in protocol n }
    ensures { result ≡ kind_in protocol n round }
{
    match protocol {
        Protocol::Agreement => agreement_kind(n, last, round),
        Protocol::Posting(s) => posting_kind(s, n, round),
    }
}

// The kind of a round of a run on a wall of n columns.
pub fn kind_in(protocol: Protocol, n: u8, round: u8) -> Kind
    ensures { result ≡ kind_in protocol n round }
{
    kind_of(protocol, n, rounds_in(protocol, n), round)
}

// The values of one message in a round of a run; none in a round that it does not have.
#[tactic(auto, unfolding(crate::specs::Protocols::values_in))]
pub fn values_in(protocol: Protocol, n: u8, m: u8, round: u8) -> u16
    ensures { result ≡ values_in protocol n m round }
{
    let last = rounds_in(protocol, n);
    if sizes::outside(1, last, round as usize) {
        return 0;
    }
    width(kind_of(protocol, n, last, round), n, m)
}

// The values of all rounds of a run that an unsound column sends one receiver.
#[tactic(auto, using(sizes::proofs::Laws::faults_le, sizes::proofs::Laws::blocks_le, crate::proofs::Laws::line_agreement, crate::proofs::Laws::line_posting))]
pub fn line_in(protocol: Protocol, n: u8, m: u8) -> usize
    ensures { result ≡ line_in protocol n m }
{
    let b = sizes::blocks(n, m);
    match protocol {
        Protocol::Agreement => 4 * b + 3 * sizes::faults(n) + 5,
        Protocol::Posting(_) => m as usize + 4 * b + 2,
    }
}

// How many protocols there are.
pub const PROTOCOLS: usize = 2;

// WHAT A PROTOCOL IS BESIDE ITS ROUNDS

// Its number, as a state's bytes have it.
#[tactic(auto, unfolding(crate::specs::Protocols::number_of))]
pub fn number_of(protocol: Protocol) -> u8
    ensures { result ≡ number_of protocol }
{
    match protocol {
        Protocol::Agreement => 0,
        Protocol::Posting(_) => 1,
    }
}

// Whether one column posts its record to all others.
#[tactic(auto, unfolding(crate::specs::Protocols::posts))]
pub fn posts(protocol: Protocol) -> bool
    ensures { result ≡ posts_of protocol }
{
    matches!(protocol, Protocol::Posting(_))
}

// The column number that stands beside the sizes: the poster's or, without one, column 1, which is never refused.
#[tactic(auto, unfolding(crate::specs::Protocols::beside))]
pub fn beside(protocol: Protocol) -> u8
    ensures { result ≡ beside_of protocol }
{
    match protocol {
        Protocol::Agreement => 1,
        Protocol::Posting(s) => s,
    }
}

// The protocol of this number, with the poster's number where one posts.
#[tactic(auto, unfolding(crate::specs::Protocols::protocol_of))]
pub fn protocol_of(runs: u8, poster: u8) -> Protocol
    ensures { result ≡ protocol_of runs poster }
{
    if runs == 0 {
        Protocol::Agreement
    } else {
        Protocol::Posting(poster)
    }
}
