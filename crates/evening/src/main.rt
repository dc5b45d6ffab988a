// Plays the script on standard input to a box: requests and the other calls, one to a line. Writes each line and what came of it; the file
// `stdout` says what that must be.
#![tactic(auto)]

mod commands;
mod fields;
mod lent;
mod player;
mod show;

use commands::Command;
use player::Player;
use script::Lines;
use std::io;

fn main(rt: HostRuntime) -> io::Result<()> {
    let mut input = [0u8; 131072];
    let n = script::read_full(&mut rt.stdin(), &mut input)?;
    let mut player = Player::new(&rt);
    for line in Lines(&input[..n]) {
        rt.write_all(line)?;
        println!(rt; "")?;
        if let Some(command) = Command::read(line) {
            player.play(command)?;
        }
    }
    Ok(())
}
