// Reads one sheet from standard input and prints the listing of its posting wall, or `refused` and a number. The argument is the number of the
// column that posts.
#![tactic(auto)]

use protocols::Protocol;
use std::env::Env;
use std::io;

fn main(rt: HostRuntime) -> io::Result<()> {
    // A missing argument, or one that is too long to be a column's number, is read as no text: 0, which is no column.
    let mut word = [0u8; 16];
    let told = rt.arg(1, &mut word).unwrap_or(0);
    let poster = listing::numbers::poster_of(&word[..told]);
    listing::console::list(Protocol::Posting(poster), &mut rt.stdin(), &mut rt.stdout())
}
