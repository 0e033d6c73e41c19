// The rounds of a wall's run: in each, first all columns speak, then all listen.
ghost use Rattle.std.specs.Prelude.{◌≡◌, ◌*◌, ◌≤◌, length};
ghost use Rattle.sizes.specs.Laws.{InRange};
ghost use Rattle.sheet.specs.Sheet.{columns, bytes};
ghost use Rattle.sheet.specs.Laws.{Arrays};
ghost use Rattle.wall_run.specs.Run.{played as played_of, ended as ended_of};

use crate::{listening, space, speaking, start};
use agreement::Column;
use delivery::Round;
use field::Field;
use protocols::Protocol;

// One round; the mail is used for it alone.
fn played(sheet: &[u8], round: Round, wall: [Column; 31], mail: &mut [u16]) -> [Column; 31]
    requires { InRange (columns sheet.now) (bytes sheet.now) × (columns sheet.now * round.width ≤ 992) × (length mail.old ≡ columns sheet.now * (columns sheet.now * round.width)) }
    ensures { result ≡ played_of sheet.now round wall }
{
    mail.fill(Field::BLANK);
    let spoken = speaking::speak_all(sheet, round.width, wall, mail);
    listening::listen_all(sheet, round, mail, spoken)
}

// All rounds.
pub(super) fn ended(protocol: Protocol, sheet: &[u8]) -> [Column; 31]
    requires { Arrays sheet.now }
    ensures { result ≡ ended_of protocol sheet.now }
{
    let n = sheet::columns(sheet);
    let m = sheet::bytes(sheet);
    let last = protocols::rounds_in(protocol, n) as u8;
    let line = protocols::line_in(protocol, n, m) as u16;
    // Room for what 31 columns say, each at most 992 values.
    let mut mail = [Field::BLANK; 30752];
    let mut wall = start::start(protocol, sheet);
    let mut offset = 0u16;
    for q in 0..last {
        let width = protocols::values_in(protocol, n, m, q + 1);
        let len = space::of_many(sheet, width, n);
        let round = Round {
            line,
            offset,
            width,
        };
        // In a variable first: a call's answer is not laid over the array that was handed to it.
        let next = played(sheet, round, wall, &mut mail[..len]);
        wall = next;
        offset += width;
    }
    wall
}
