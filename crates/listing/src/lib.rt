// The listing of a wall as bytes: a line of its sizes and one for each column, or the one line of a refused run.
#![tactic(auto)]

pub mod console;
mod lines;
pub mod numbers;
mod text;

ghost use Rattle.std.specs.Prelude.{◌≡◌, List, ℕ, min, length, take};
ghost use Rattle.listing.specs.Listing.{listing_of, shown};
ghost use Rattle.listing.specs.Input.{Starts, printed_of};

use protocols::Protocol;
use text::Text;

// What a program reads of its input: one byte more than the longest sheet has, so that a longer input is seen to be longer.
pub const ROOM: usize = 42566;

// What every listing has room in.
pub const MOST: usize = 3200;

// A listing by value: it stands in the first `len` bytes.
#[derive(Clone, Copy)]
pub struct Printed {
    pub bytes: [u8; MOST],
    pub len: usize,
}

// Runs the wall that a sheet describes and writes its listing to the front of the slice, as far as there is room: answers how many bytes of
// the slice hold it. A slice of 3,200 bytes holds every listing whole.
pub fn write(protocol: Protocol, sheet: &[u8], out: &mut [u8]) -> usize
    ensures { (result ≡ min (length (listing_of protocol sheet.now)) (length out.old)) × (out.new ≡ shown (listing_of protocol sheet.now) out.old) }
{
    let n = sheet::columns(sheet);
    let m = sheet::bytes(sheet);
    let came = wall_run::outcomes_of(protocol, sheet, n as usize);
    let mut text = Text { out, at: 0 };
    text.put_listing(protocol, n, m, came);
    text.at
}

// The listing of the first `came` bytes of a slice, or of all of it where it has no more.
fn write_part(protocol: Protocol, room: &[u8], came: usize, out: &mut [u8]) -> usize
    ensures { (result ≡ min (length (listing_of protocol (take came room.now))) (length out.old))
        × (out.new ≡ shown (listing_of protocol (take came room.now)) out.old) }
{
    if came < room.len() {
        return write(protocol, &room[..came], out);
    }
    write(protocol, room, out)
}

// What a program prints whose input put `came` bytes into the room: the listing of every input that starts so, whatever follows where the
// room is full.
pub fn of_input(protocol: Protocol, room: &[u8; ROOM], came: usize) -> Printed
    ensures whole { result ≡ printed_of protocol (take came room.now) }
    ensures every { (input : List ℕ) → Starts room.now came input → take result.len result.bytes ≡ listing_of protocol input }
{
    let mut bytes = [0u8; MOST];
    let len = write_part(protocol, room, came, &mut bytes);
    Printed { bytes, len }
}
