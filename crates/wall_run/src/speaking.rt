// The first half of a round: every sound column speaks. What it says lies in the mail, by the sender's number.
ghost use Rattle.std.specs.Prelude.{◌≡◌, ◌++◌, ◌+◌, ◌*◌, ◌≤◌, ◌<◌, length, take, drop};
ghost use Rattle.lists.specs.Lists.{list_of};
ghost use Rattle.messages.specs.Messages.{said};
ghost use Rattle.sheet.specs.Sheet.{columns};
ghost use Rattle.wall_run.specs.Run.{each, blanks, spoken, words, mail as mail_of};
ghost use Rattle.wall_run.specs.Speaking.{Space};

use crate::space;
use agreement::Column;

// Column j + 1 speaks into the front of its part of the mail, if it is sound.
fn say(sheet: &[u8], width: u16, j: u8, column: Column, part: &mut [u16]) -> Column
    requires { (j < 255) × (columns sheet.now * width ≤ length part.old) × (take (columns sheet.now * width) part.old ≡ blanks (columns sheet.now) width) }
    ensures { (result ≡ spoken sheet.now width (j + 1) column)
        × (part.new ≡ list_of (said (words sheet.now width (j + 1) column)) (columns sheet.now * width) ++ drop (columns sheet.now * width) part.old) }
{
    if !sheet::sound(sheet, j + 1) {
        return column;
    }
    let len = space::of_one(sheet, width);
    calls::speak(column, &mut part[..len]).unwrap_or(column)
}

// All columns speak; the mail was blank. By number, which says who speaks, and where in the mail.
pub(super) fn speak_all(
    sheet: &[u8],
    width: u16,
    mut wall: [Column; 31],
    mail: &mut [u16],
) -> [Column; 31]
    requires { Space (columns sheet.now) width mail.old }
    ensures { (result ≡ each (columns sheet.now) (spoken sheet.now width) wall) × (mail.new ≡ mail_of sheet.now width wall) }
{
    let n = sheet::columns(sheet);
    for j in 0..n {
        let i = j as usize;
        let at = space::of_many(sheet, width, j);
        wall[i] = say(sheet, width, j, wall[i], &mut mail[at..]);
    }
    wall
}
