// The row of entries that a program lends.
ghost use Rattle.std.specs.Prelude.{◌≡◌, ◌≤◌, length};
ghost use Rattle.lists.specs.Lists.{list_of};
ghost use Rattle.wall_run.specs.Row.{entry_at};

use agreement::Entry;

// Writes the entries to the row, as many as it has places.
pub(super) fn write(row: &mut [Entry], entries: [Entry; 31])
    requires { length row.old ≤ 31 }
    ensures { row.new ≡ list_of (entry_at entries) (length row.old) }
{
    // By index: `copy_from_slice` asks the linker for memmove.
    for i in 0..row.len() {
        row[i] = entries[i];
    }
}
