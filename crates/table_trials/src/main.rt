// Runs the cases of bond tables, distances and network files, each refusal from both sides of its border: a printed line for
// each answer.
#![tactic(auto)]

mod readings;
mod tables;
mod writings;

use network::Network;
use std::io;

// The words of the greatest table.
pub const WORDS: usize = Network::ATOMS * Network::PLACES;

// The paper's Fig. 1, a to g as 0 to 6: each row's eight places, a stroke for a free one.
fn main(rt: HostRuntime) -> io::Result<()> {
    let figure = b"14------023-----15------156-----05------2346----35------".map(word);
    tables::run(&rt, &figure)?;
    readings::run(&rt)?;
    writings::run(&rt, &figure)
}

// The word so written.
pub fn word(letter: u8) -> u16 {
    if letter == b'-' {
        Network::FREE
    } else {
        u16::from(letter % b'0')
    }
}
