// The program `runpage` on records of which one is of no kind.
#![tactic(auto)]

use std::io;

fn main(rt: HostRuntime) -> io::Result<()> {
    playing::serve(&rt)
}
