// Reads one sheet from standard input and prints the listing of its wall, or `refused` and a number.
#![tactic(auto)]

use protocols::Protocol;
use std::io;

fn main(rt: HostRuntime) -> io::Result<()> {
    listing::console::list(Protocol::Agreement, &mut rt.stdin(), &mut rt.stdout())
}
