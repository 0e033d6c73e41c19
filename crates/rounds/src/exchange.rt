// Round 1 of an agreement, round 2 of a posting: the exchange.
#![tactic(auto, using(sizes::proofs::Refusals::there, sizes::proofs::Refusals::got, messages::proofs::Laws::if_done, crate::specs::Ready::exchange_accepted), unfolding(agreement::specs::Rounds::hears, crate::specs::Rounds::to_columns, protocols::specs::Protocols::width, agreement::specs::Rounds::message, dispersal::specs::Dispersal::exchanges))]

ghost use Rattle.std.specs.Prelude.{◌≡◌, length};
ghost use Rattle.protocols.specs.declared.Kind.TheVariants.{Exchange};
ghost use Rattle.agreement.specs.Rounds.{hears};
ghost use Rattle.rounds.specs.Rounds.{to_columns};
ghost use Rattle.rounds.specs.Ready.{Ready};

use agreement::{Column, Stage};

// To each column the values at the own point, then those at its point.
pub(super) fn say(column: Column, out: &mut [u16])
    requires { Ready Exchange column (length out.old) }
    ensures { out.new ≡ to_columns Exchange column }
{
    dispersal::exchange::send(column.n, column.m, column.own, column.bytes, out).unwrap();
}

// Which columns the column agrees with.
pub(super) fn hear(column: Column, next: Stage, inbox: &[u16]) -> Column
    requires { Ready Exchange column (length inbox.now) }
    ensures { result ≡ hears Exchange next column inbox.now }
{
    let agreements = dispersal::exchange::agreements(
        column.n,
        column.m,
        column.own,
        column.bytes,
        inbox,
    ).unwrap();
    Column {
        agreements,
        stage: next,
        ..column
    }
}
