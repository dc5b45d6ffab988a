// Reads each line of standard input as a request and writes what `reader` makes of it; the file `stdout` says what that must be.
#![tactic(auto)]

mod asked;
mod out;
mod requests;

use std::io;

fn main(rt: HostRuntime) -> io::Result<()> {
    requests::run(&mut rt.stdin(), &rt)
}
