// The test of one candidate: refusals 14 to 17 from both sides, and Fig. 1's rings.
ghost use Rattle.std.specs.Prelude.{◌≤◌, length};

use crate::models;
use candidate::Candidate;
use network::{Answer, Network};
use ring::Ring;
use say::{Shown, ShownWords};
use std::io;

pub fn run(rt: &impl Print, figure: &[u16; 56]) -> io::Result<()> {
    cycle(rt)?;
    faults(rt, figure)?;
    rings(rt, figure)
}

// 14: the first 2, 3, 24 and 25 atoms of a cycle of 25.
fn cycle(rt: &impl Print) -> io::Result<()> {
    let table: [u16; 25 * Network::PLACES] = models::circle(25, 25);
    let ring = [
        0, 1, 2, 3, 4, 5, 6, 7, 8, 9, 10, 11, 12, 13, 14, 15, 16, 17, 18, 19, 20, 21, 22, 23, 24,
    ];
    for length in [2, 3, Ring::LENGTH, Ring::LENGTH + 1] {
        test(rt, &table, &ring[..length])?;
    }
    Ok(())
}

// 15 to 17: the first place at fault, 15 over all places, then 16, then 17.
fn faults(rt: &impl Print, figure: &[u16; 56]) -> io::Result<()> {
    let candidates: [&[u16]; 4] = [&[3, 3, 7], &[3, 6, 3, 6], &[3, 5, 0], &[0, 1, 3, 6]];
    for candidate in candidates {
        test(rt, figure, candidate)?;
    }
    Ok(())
}

// A ring, the other way round, another from its middle, and a ring with a shortcut.
fn rings(rt: &impl Print, figure: &[u16; 56]) -> io::Result<()> {
    let candidates: [&[u16]; 4] = [
        &[3, 5, 6],
        &[6, 5, 3],
        &[5, 4, 0, 1, 2],
        &[0, 1, 3, 6, 5, 4],
    ];
    for candidate in candidates {
        test(rt, figure, candidate)?;
    }
    Ok(())
}

// Tests a candidate in a network of at most 40 atoms: answer, yes or no with its pair, writing.
pub fn test(rt: &impl Print, table: &[u16], candidate: &[u16]) -> io::Result<()>
    requires { length table.now ≤ 320 }
{
    let n = table.len() / Network::PLACES;
    let mut dist = [9u8; 1600];
    let none = [0; Ring::LENGTH];
    let outcome = candidate::test(n, table, candidate, &mut dist[..n * n]);
    print!(rt; "candidate{}: ", ShownWords(candidate))?;
    match outcome {
        Ok(Candidate::Ring(writing)) => {
            println!(rt;
                "{} yes{}",
                Shown(&Answer::accepted()),
                ShownWords(&writing)
            )
        }
        Ok(Candidate::CutShort(i, j)) => {
            println!(rt;
                "{} no {i} {j}{}",
                Shown(&Answer::accepted()),
                ShownWords(&none)
            )
        }
        Err(refusal) => {
            println!(rt;
                "{} refused{}",
                Shown(&Answer::from(refusal)),
                ShownWords(&none)
            )
        }
    }
}
