// A whole wall on plain slices.
ghost use Rattle.std.specs.Prelude.{◌≡◌, length};
ghost use Rattle.protocols.specs.declared.Protocol.TheVariants.{Agreement, Posting};
ghost use Rattle.wall_run.specs.Run.{refusal as refusal_of, row_after};
ghost use Rattle.column_bytes.specs.Calls.{narrow as narrow_of};
ghost use Rattle.wall_bytes.specs.Calls.{wall_answer, wall_row};

use crate::rows;
use agreement::Entry;
use column_bytes::numbers::narrow;
use protocols::Protocol;
use sizes::numbers::number_in;

// Runs the wall that a sheet describes and writes an entry for each column, one after the other: `wall_run::run`. Refused with 4, 1, 2, 4, 5, 6, 4 as a sheet is,
// a slice not as long as n entries being a row not of n entries.
pub fn column_wall(sheet: &[u8], row: &mut [u8]) -> u8
    ensures { (result ≡ wall_answer Agreement sheet.now row.old) × (row.new ≡ wall_row Agreement sheet.now row.old) }
{
    number_in(rows::run(Protocol::Agreement, sheet, row))
}

// The same of a posting, with the poster's number beside the sheet: `wall_run::run`. Refused with 3 too, after 1 and 2.
pub fn posting_wall(poster: u32, sheet: &[u8], row: &mut [u8]) -> u8
    ensures { (result ≡ wall_answer (Posting (narrow_of poster)) sheet.now row.old) × (row.new ≡ wall_row (Posting (narrow_of poster)) sheet.now row.old) }
{
    number_in(rows::run(Protocol::Posting(narrow(poster)), sheet, row))
}

// The same with the row as an array of structs: firmware/c/posting_rows.c.
pub fn posting_rows<'a>(poster: u8, sheet: &'a [u8], row: &'a mut [Entry]) -> u8
    ensures { (result ≡ refusal_of (Posting poster) sheet.now (length row.old)) × (row.new ≡ row_after (Posting poster) sheet.now row.old) }
{
    number_in(wall_run::run(Protocol::Posting(poster), sheet, row))
}
