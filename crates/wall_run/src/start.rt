// The columns of a wall before the first round.
ghost use Rattle.std.specs.Prelude.{◌≡◌, ◌<◌};
ghost use Rattle.sheet.specs.Sheet.{columns};
ghost use Rattle.sheet.specs.Laws.{Arrays};
ghost use Rattle.wall_run.specs.Run.{made as made_of, start as start_of};

use agreement::Column;
use protocols::Protocol;

// Column i + 1, with its record of the sheet.
fn made(protocol: Protocol, sheet: &[u8], i: u8) -> Column
    requires { Arrays sheet.now × (i < columns sheet.now) }
    ensures { result ≡ made_of protocol sheet.now i }
{
    let n = sheet::columns(sheet);
    let m = sheet::bytes(sheet);
    let at = sheet::record_place(n, m, i);
    let end = at + m as usize;
    calls::fresh(protocol, n, m, i + 1, &sheet[at..end]).unwrap_or(calls::no_column())
}

// All columns. By number, which each is made with.
pub(super) fn start(protocol: Protocol, sheet: &[u8]) -> [Column; 31]
    requires { Arrays sheet.now }
    ensures { result ≡ start_of protocol sheet.now }
{
    let n = sheet::columns(sheet);
    let mut wall = [calls::no_column(); 31];
    for i in 0..n {
        let at = i as usize;
        wall[at] = made(protocol, sheet, i);
    }
    wall
}
