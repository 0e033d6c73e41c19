// Rounds 2 and 3 of an agreement, 3 and 4 of a posting: the reports, and the grade that the second ones give.
#![tactic(auto, unfolding(agreement::specs::Rounds::hears, agreement::specs::Rounds::received, agreement::specs::Rounds::message, agreement::specs::Rounds::graded, agreement::specs::Rounds::first_vote))]

ghost use Rattle.std.specs.Prelude.{◌≡◌};
ghost use Rattle.protocols.specs.declared.Kind.TheVariants.{FirstReport, SecondReport};
ghost use Rattle.agreement.specs.Rounds.{hears};

use super::votes::vote_after;
use super::words::{first_report, received, second_report};
use agreement::{Column, Stage};

// Which first reports came.
pub(super) fn hear_first(column: Column, next: Stage, inbox: &[u16]) -> Column
    ensures { result ≡ hears FirstReport next column inbox.now }
{
    let values = received(column.n, column.own, first_report(column), inbox);
    Column {
        reports: dispersal::reports::received(column.n, values),
        stage: next,
        ..column
    }
}

// The second reports give the grade, and the grade the vote, which starts as 1 exactly at grade 2.
pub(super) fn hear_second(column: Column, next: Stage, inbox: &[u16]) -> Column
    ensures { result ≡ hears SecondReport next column inbox.now }
{
    let values = received(column.n, column.own, second_report(column), inbox);
    let grade = dispersal::reports::grade(
        column.n,
        column.own,
        column.agreements,
        column.reports,
        values,
    );
    Column {
        grade,
        vote: vote_after(column.protocol, column.vote, u8::from(grade == 2)),
        stage: next,
        ..column
    }
}
