// Whether a column's state is in its ranges: document 01's refusal 11. Each part is looked at by itself.
ghost use Rattle.std.specs.Prelude.{◌≡◌, not, ◌&&◌, ◌||◌, ◌≤◌, eqb, ltb};
ghost use Rattle.lists.specs.Lists.{all};
ghost use Rattle.field.specs.Field.{blank};
ghost use Rattle.sizes.specs.Sizes.{outside};
ghost use Rattle.sizes.specs.Laws.{InRange};
ghost use Rattle.messages.specs.Messages.{read_point, said};
ghost use Rattle.agreement.specs.Column.{stage_fits, byte_fits, flag_fits, point_fits, names_fit, numbers_fit, arrays_fit, fits as fits_of};

use agreement::{Column, Stage};
use field::Field;

// Whether a run of `last` rounds has the stage's round.
#[tactic(auto, unfolding(agreement::specs::Column::stage_fits))]
fn stage_fits(last: usize, stage: Stage) -> bool
    ensures { result ≡ stage_fits last stage }
{
    match stage {
        Stage::Speak(round) | Stage::Listen(round) => !sizes::outside(1, last, round as usize),
        Stage::Ended(_) => true,
    }
}

// The own and the poster's number, each with the sizes.
#[tactic(auto, unfolding(agreement::specs::Column::names_fit))]
fn names_fit(column: Column) -> bool
    ensures { result ≡ names_fit column }
{
    sizes::refusal(column.n, column.m, column.own).is_ok()
        && sizes::refusal(column.n, column.m, protocols::beside(column.protocol)).is_ok()
}

// The numbers of a state.
#[tactic(auto, unfolding(agreement::specs::Column::numbers_fit))]
fn numbers_fit(column: Column) -> bool
    ensures { result ≡ numbers_fit column }
{
    names_fit(column)
        && stage_fits(
            protocols::rounds_in(column.protocol, column.n),
            column.stage,
        )
        && column.grade < 3
        && column.vote < 2
        && messages::read_bit(column.proposal) == column.proposal
}

// Past m a record has only zeros. By index, as below, and none left early: the machine tests eight at a time.
fn bytes_fit(m: u8, bytes: [u8; 32]) -> bool
    requires { m ≤ 32 }
    ensures { result ≡ all (byte_fits m bytes) 32 }
{
    let mut fit = true;
    for p in m as usize..32 {
        fit = fit & (bytes[p] == 0);
    }
    fit
}

// Past n no flag is set, of agreements and reports.
fn flags_fit(n: u8, agreements: [bool; 31], reports: [bool; 31]) -> bool
    requires { n ≤ 31 }
    ensures { result ≡ all (flag_fits n agreements) 31 && all (flag_fits n reports) 31 }
{
    let mut fit = true;
    for i in n as usize..31 {
        fit = fit & (!agreements[i] & !reports[i]);
    }
    fit
}

// Whether v may be kept of block k, of b: a point or blank, past b only blank.
fn point_fits(b: usize, k: usize, v: u16) -> bool
    ensures { result ≡ eqb (read_point v) v && (ltb k b || eqb v blank) }
{
    messages::read_point(v) == v && (k < b || v == Field::BLANK)
}

fn points_fit(b: usize, kept: [u16; 32]) -> bool
    ensures { result ≡ all (point_fits b kept) 32 }
{
    let mut fit = true;
    for k in 0..32 {
        fit = fit & point_fits(b, k, messages::value(&kept, k));
    }
    fit
}

// Whether nothing is kept.
fn are_blank(kept: [u16; 32]) -> bool
    ensures { result ≡ all (λ k. eqb (said kept k) blank) 32 }
{
    let mut blank = true;
    for k in 0..32 {
        blank = blank & (messages::value(&kept, k) == Field::BLANK);
    }
    blank
}

// Before the last rounds nothing is kept, and then no block is looked at.
fn kept_fit(b: usize, kept: [u16; 32]) -> bool
    ensures { result ≡ all (point_fits b kept) 32 }
{
    are_blank(kept) || points_fit(b, kept)
}

// The arrays of a state. None is left at the first entry out of its range: that would cost a branch at each.
#[tactic(auto, unfolding(agreement::specs::Column::arrays_fit))]
fn arrays_fit(column: Column) -> bool
    requires { InRange column.n column.m }
    ensures { result ≡ arrays_fit column }
{
    bytes_fit(column.m, column.bytes)
        && flags_fit(column.n, column.agreements, column.reports)
        && kept_fit(sizes::blocks(column.n, column.m), column.kept)
}

// Whether every part of the state is in its range.
#[tactic(auto, unfolding(agreement::specs::Column::fits))]
pub(super) fn fits(column: Column) -> bool
    ensures { result ≡ fits_of column }
{
    numbers_fit(column) && arrays_fit(column)
}
