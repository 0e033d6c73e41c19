// How much room the messages of a round take.
ghost use Rattle.std.specs.Prelude.{◌≡◌, ◌*◌, ◌≤◌};
ghost use Rattle.sheet.specs.Sheet.{columns};

// What one column says: a message of `width` values to each.
pub(super) fn of_one(sheet: &[u8], width: u16) -> usize
    ensures { result ≡ columns sheet.now * width }
{
    messages::place(sheet::columns(sheet), width, 0)
}

// What j columns say, one after the other.
pub(super) fn of_many(sheet: &[u8], width: u16, j: u8) -> usize
    requires { (columns sheet.now ≤ 31) × (columns sheet.now * width ≤ 992) }
    ensures { result ≡ j * (columns sheet.now * width) }
{
    messages::place(j, of_one(sheet, width) as u16, 0)
}
