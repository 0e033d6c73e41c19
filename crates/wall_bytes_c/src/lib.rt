// The archive for tests and tools, libwall_bytes.a: each export is the call of `wall_bytes` of the same name, with that call's contract.
// include/wall.h declares them. What a board needs is in `column_bytes_c`.
#![tactic(auto)]

ghost use Rattle.std.specs.Prelude.{◌≡◌, length};
ghost use Rattle.protocols.specs.declared.Protocol.TheVariants.{Agreement, Posting};
ghost use Rattle.wall_run.specs.Run.{refusal as refusal_of, row_after};
ghost use Rattle.column_bytes.specs.Calls.{narrow as narrow_of};
ghost use Rattle.wall_bytes.specs.Calls.{wall_answer, wall_row, block_answer, block_out};

use agreement::Entry;
use wall_bytes::{blocks, walls};

#[unsafe(no_mangle)]
pub extern "C" fn column_wall(sheet: &[u8], row: &mut [u8]) -> u8
    ensures { (result ≡ wall_answer Agreement sheet.now row.old) × (row.new ≡ wall_row Agreement sheet.now row.old) }
{
    walls::column_wall(sheet, row)
}

#[unsafe(no_mangle)]
pub extern "C" fn posting_wall(poster: u32, sheet: &[u8], row: &mut [u8]) -> u8
    ensures { (result ≡ wall_answer (Posting (narrow_of poster)) sheet.now row.old) × (row.new ≡ wall_row (Posting (narrow_of poster)) sheet.now row.old) }
{
    walls::posting_wall(poster, sheet, row)
}

#[unsafe(no_mangle)]
pub extern "C" fn posting_rows<'a>(poster: u8, sheet: &'a [u8], row: &'a mut [Entry]) -> u8
    ensures { (result ≡ refusal_of (Posting poster) sheet.now (length row.old)) × (row.new ≡ row_after (Posting poster) sheet.now row.old) }
{
    walls::posting_rows(poster, sheet, row)
}

#[unsafe(no_mangle)]
pub extern "C" fn column_decode(n: u32, points: &[u16], out: &mut [u16]) -> u8
    ensures { (result ≡ block_answer (narrow_of n) points.now out.old) × (out.new ≡ block_out (narrow_of n) points.now out.old) }
{
    blocks::column_decode(n, points, out)
}
