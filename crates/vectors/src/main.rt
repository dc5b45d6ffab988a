// Runs vectors through `scan`, `digits`, `writing` and `journal` and writes what they give; the file `stdout` says what that must be. Each line of
// standard input is a text that goes through every reading; the buffers and the records are made here.
#![tactic(auto)]

mod buffers;
mod out;
mod records;
mod texts;

use std::io;

fn main(rt: HostRuntime) -> io::Result<()> {
    texts::run(&mut rt.stdin(), &rt)?;
    buffers::run(&rt)?;
    records::run(&rt)
}
