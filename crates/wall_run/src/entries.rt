// What the columns came to.
ghost use Rattle.std.specs.Prelude.{◌≡◌, ◌+◌, ◌<◌, ◌≤◌};
ghost use Rattle.sheet.specs.Sheet.{columns};
ghost use Rattle.wall_run.specs.Run.{entry_of, in_places};

use agreement::{Column, Entry};

// The entry of column i + 1.
fn entry(sheet: &[u8], i: u8, column: Column) -> Entry
    requires { i < 255 }
    ensures { result ≡ entry_of sheet.now (i + 1) column }
{
    if sheet::sound(sheet, i + 1) {
        return calls::sound_entry(column);
    }
    calls::mark_only(sheet::mark(sheet, i + 1))
}

// All entries, zeros past n. By number, which says whose entry it is.
pub(super) fn all(sheet: &[u8], wall: [Column; 31]) -> [Entry; 31]
    requires { columns sheet.now ≤ 31 }
    ensures { result ≡ in_places sheet.now wall }
{
    let n = sheet::columns(sheet);
    let mut entries = [calls::mark_only(0); 31];
    for i in 0..n {
        let at = i as usize;
        entries[at] = entry(sheet, i, wall[at]);
    }
    entries
}
