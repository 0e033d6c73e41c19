// A whole wall: n columns driven by their calls through all rounds of a protocol, the unsound ones speaking from their lines of the sheet.
#![tactic(auto)]

mod entries;
mod listening;
mod playing;
mod row;
mod space;
mod speaking;
mod start;

ghost use Rattle.std.specs.Prelude.{◌≡◌, length};
ghost use Rattle.sizes.specs.Refusals.{number_in};
ghost use Rattle.sheet.specs.Sheet.{columns};
ghost use Rattle.wall_run.specs.Run.{refusal as refusal_of, row_after, outcomes, outcomes_in};

pub use agreement::Entry;
pub use protocols::Protocol;
pub use sizes::numbers::Refusal;

// The refusal of a sheet, for a row of `rows` entries: 1, 2, 3 for the poster of a posting, 4, 5, 6 as document 01 numbers and orders them.
fn refusal(protocol: Protocol, sheet: &[u8], rows: usize) -> Result<(), Refusal>
    ensures { number_in result ≡ refusal_of protocol sheet.now rows }
{
    let n = sheet::columns(sheet);
    let m = sheet::bytes(sheet);
    sheet::refusal(
        protocols::beside(protocol),
        protocols::line_in(protocol, n, m) as u16,
        sheet,
        rows,
    )
}

// Runs the wall that a sheet describes, for a row of `rows` entries: the entries by column number, a mark 0 and zeros past the last column.
pub fn outcomes_of(protocol: Protocol, sheet: &[u8], rows: usize) -> Result<[Entry; 31], Refusal>
    ensures { outcomes_in (columns sheet.now) result ≡ outcomes protocol sheet.now rows }
{
    refusal(protocol, sheet, rows)?;
    let wall = playing::ended(protocol, sheet);
    Ok(entries::all(sheet, wall))
}

// Runs the wall that a sheet describes and writes each column's entry to the row, which must have as many places as the wall has columns.
// Where it is refused, no entry is written.
pub fn run<'a>(protocol: Protocol, sheet: &'a [u8], row: &'a mut [Entry]) -> Result<(), Refusal>
    ensures { (number_in result ≡ refusal_of protocol sheet.now (length row.old)) × (row.new ≡ row_after protocol sheet.now row.old) }
{
    let entries = outcomes_of(protocol, sheet, row.len())?;
    row::write(row, entries);
    Ok(())
}
