// A sheet of a wall, read where it lies: the sizes, the marks, where the records stand, and what is refused.
#![tactic(auto)]

ghost use Rattle.std.specs.Prelude.{◌≡◌, ◌+◌, ◌*◌, ◌<◌};
ghost use Rattle.sizes.specs.Refusals.{number_in};
ghost use Rattle.sheet.specs.Sheet.{columns as columns_of, bytes as bytes_of, mark as mark_of, sound as sound_of, unsound as unsound_of, unsound_to, record_place, arrays as arrays_of, whole as whole_of, mark_fits, in_order, refusal_of_marks, refusal as refusal_of};
ghost use Rattle.lists.specs.Lists.{bit, all};

use sizes::numbers::Refusal;

// n, the number of columns.
#[tactic(auto, unfolding(crate::specs::Sheet::columns))]
pub fn columns(sheet: &[u8]) -> u8
    ensures { result ≡ columns_of sheet.now }
{
    messages::byte(sheet, 0)
}

// m, the bytes of a record.
#[tactic(auto, unfolding(crate::specs::Sheet::bytes))]
pub fn bytes(sheet: &[u8]) -> u8
    ensures { result ≡ bytes_of sheet.now }
{
    messages::byte(sheet, 1)
}

// The mark of column i.
#[tactic(auto, unfolding(crate::specs::Sheet::mark))]
pub fn mark(sheet: &[u8], i: u8) -> u8
    ensures { result ≡ mark_of sheet.now i }
{
    messages::byte(sheet, i as usize + 1)
}

// Whether i is a column, and marked sound.
#[tactic(auto, unfolding(crate::specs::Sheet::sound))]
pub fn sound(sheet: &[u8], i: u8) -> bool
    ensures { result ≡ sound_of sheet.now i }
{
    i <= columns(sheet) && mark(sheet, i) == 0
}

// 1 where column i is marked unsound, else 0.
#[tactic(auto, unfolding(crate::specs::Sheet::unsound))]
fn one_if_unsound(sheet: &[u8], i: u8) -> u8
    ensures { result ≡ bit (unsound_of sheet.now i) }
{
    u8::from(mark(sheet, i) == 1)
}

// How many of the columns 1 to i are marked unsound. By index: where it was tried, counting by `filter` took twice as long.
fn unsound_to(sheet: &[u8], i: u8) -> u8
    ensures { result ≡ unsound_to sheet.now i }
{
    let mut sum = 0u8;
    for j in 0..i {
        sum += one_if_unsound(sheet, j + 1);
    }
    sum
}

// Where the record of column i + 1 begins, of n columns and m bytes.
pub fn record_place(n: u8, m: u8, i: u8) -> usize
    ensures { result ≡ record_place n m (i + 1) }
{
    2 + n as usize + messages::place(i, m as u16, 0)
}

// Where the lines begin.
fn arrays(n: u8, m: u8) -> usize
    ensures { result ≡ arrays_of n m }
{
    2 + n as usize + messages::place(n, m as u16, 0)
}

fn times(a: u16, b: u16) -> usize
    ensures { result ≡ a * b }
{
    a as usize * b as usize
}

// How many values the lines of u unsound columns have: each has a line to each of n columns.
fn values(n: u8, line: u16, u: u8) -> usize
    ensures { (result ≡ u * n * line) × (result < 4294967296) }
{
    let lines = messages::place(u, n as u16, 0);
    times(lines as u16, line)
}

// The length of a sheet of n columns and m bytes, u of them unsound.
fn whole(line: u16, n: u8, m: u8, u: u8) -> usize
    ensures { result ≡ whole_of line n m u }
{
    arrays(n, m) + 2 * values(n, line, u)
}

// Whether column i + 1 is marked 0 or 1.
#[tactic(auto, unfolding(crate::specs::Sheet::mark_fits))]
fn mark_fits(sheet: &[u8], i: u8) -> bool
    requires { i < 255 }
    ensures { result ≡ mark_fits sheet.now i }
{
    mark(sheet, i + 1) < 2
}

fn marks_fit(sheet: &[u8], n: u8) -> bool
    ensures { result ≡ all (mark_fits sheet.now) n }
{
    (0..n).all(|i| mark_fits(sheet, i))
}

// 5 where a mark does not fit, then 6 where not few are unsound, then 4 where the sheet is not whole.
#[tactic(auto, unfolding(crate::specs::Sheet::in_order))]
fn in_order(fit: bool, few: bool, full: bool) -> Result<(), Refusal>
    ensures { number_in result ≡ in_order fit few full }
{
    if !fit {
        return Err(Refusal::Mark);
    }
    if !few {
        return Err(Refusal::Unsound);
    }
    if full {
        return Ok(());
    }
    Err(Refusal::Length)
}

// Of the marks and the full length.
fn refusal_of_marks(line: u16, sheet: &[u8]) -> Result<(), Refusal>
    ensures { number_in result ≡ refusal_of_marks line sheet.now }
{
    let n = columns(sheet);
    let u = unsound_to(sheet, n);
    let few = u as usize <= sizes::faults(n);
    let full = sheet.len() == whole(line, n, bytes(sheet), u);
    in_order(marks_fit(sheet, n), few, full)
}

// The refusal of a sheet whose lines have `line` values for each receiver, with a column number beside it, and of a row of `rows` entries.
pub fn refusal(number: u8, line: u16, sheet: &[u8], rows: usize) -> Result<(), Refusal>
    ensures { number_in result ≡ refusal_of number line sheet.now rows }
{
    if sheet.len() < 2 {
        return Err(Refusal::Length);
    }
    let n = columns(sheet);
    let m = bytes(sheet);
    sizes::refusal(n, m, number)?;
    if sheet.len() < arrays(n, m) {
        return Err(Refusal::Length);
    }
    if rows != n as usize {
        return Err(Refusal::Length);
    }
    refusal_of_marks(line, sheet)
}
