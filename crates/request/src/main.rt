// Document 01's request program: makes a box, reads one request from standard input and writes the box's answer to standard output.
#![tactic(auto)]

mod input;

ghost use Rattle.std.specs.Prelude.{◌≡◌, ◌++◌, ◌≤◌, length, take, drop};
ghost use Rattle.request.specs.Program.{printed};

use std::io;
use table::{SatBox, Settings};

const SETTINGS: Settings = Settings {
    size: 1024,
    frontends: 2,
    spare: 0,
    reach: [15, 15, 0, 0, 0, 0, 0, 0],
};

// 192.168.178.39
const ADDRESS: u32 = 0xC0A8B227;

// Puts a fresh box's answer to a request at the front of a buffer, and returns how many bytes it has.
fn answer(request: &[u8], buffer: &mut [u8]) -> usize
    requires { 4096 ≤ length buffer.old }
    ensures value { (result ≡ length (printed request.now))
        × (buffer.new ≡ printed request.now ++ drop result buffer.old) }
    ensures fits { result ≤ length buffer.new }
    ensures prefix_len { result ≡ length (take result buffer.new) }
{
    let mut journal = [0u8; 1024];
    let satbox = SatBox::fresh(SETTINGS).unwrap();
    let replied = satbox::request(satbox, request, 0, ADDRESS, 1, buffer, &mut journal);
    replied.outcome.unwrap() as usize
}

fn main(rt: HostRuntime) -> io::Result<()> {
    let mut request = [0u8; 4096];
    let mut buffer = [0u8; 4096];
    let n = input::read_all(&mut rt.stdin(), &mut request)?;
    let count = answer(&request[..n], &mut buffer);
    rt.write_all(&buffer[..count])
}
