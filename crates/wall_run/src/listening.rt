// The second half of a round: every sound column listens to what the mail and the lines of the unsound columns have for it.
ghost use Rattle.std.specs.Prelude.{◌≡◌, ◌+◌, ◌*◌, ◌≤◌, length};
ghost use Rattle.sizes.specs.Laws.{InRange, Accepted};
ghost use Rattle.sheet.specs.Sheet.{columns, bytes};
ghost use Rattle.wall_run.specs.Run.{each, heard};

use crate::space;
use agreement::Column;
use delivery::Round;
use field::Field;

// Column i + 1 listens, if it is sound.
fn hear(
    sheet: &[u8],
    round: Round,
    mail: &[u16],
    i: u8,
    column: Column,
    inbox: &mut [u16],
) -> Column
    requires { Accepted (columns sheet.now) (bytes sheet.now) (i + 1) × (length inbox.old ≡ columns sheet.now * round.width) }
    ensures { result ≡ heard sheet.now round mail.now (i + 1) column }
{
    if !sheet::sound(sheet, i + 1) {
        return column;
    }
    delivery::deliver(sheet, round, mail, i + 1, inbox).unwrap();
    calls::listen(column, inbox).unwrap_or(column)
}

// All columns listen. By number, which says who listens.
pub(super) fn listen_all(
    sheet: &[u8],
    round: Round,
    mail: &[u16],
    mut wall: [Column; 31],
) -> [Column; 31]
    requires { InRange (columns sheet.now) (bytes sheet.now) × (columns sheet.now * round.width ≤ 992) }
    ensures { result ≡ each (columns sheet.now) (heard sheet.now round mail.now) wall }
{
    let n = sheet::columns(sheet);
    let len = space::of_one(sheet, round.width);
    let mut inbox = [Field::BLANK; 992];
    for i in 0..n {
        let at = i as usize;
        wall[at] = hear(sheet, round, mail, i, wall[at], &mut inbox[..len]);
    }
    wall
}
