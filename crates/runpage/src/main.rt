// Runs pages and responses from records on standard input (docs/PROTOCOL.md).
#![tactic(auto)]

use std::io;

fn main(rt: HostRuntime) -> io::Result<()> {
    playing::serve(&rt)
}
