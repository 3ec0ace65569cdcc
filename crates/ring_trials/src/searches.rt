// Counting and listing: refusals 2, 3, 12 and 13 from both sides, and long cycles.
ghost use Rattle.std.specs.Prelude.{◌≤◌, length};

use crate::models;
use network::Network;
use ring::Ring;
use say::{Shown, ShownWords};
use std::io;

pub fn run(rt: &impl Print, figure: &[u16; 56]) -> io::Result<()> {
    limits(rt, figure)?;
    allowances(rt, figure)?;
    rooms(rt, figure)?;
    circles(rt)
}

// Fig. 1 at the borders of the limit.
fn limits(rt: &impl Print, figure: &[u16; 56]) -> io::Result<()> {
    for limit in [1, 2, 3, Ring::LENGTH, Ring::LENGTH + 1] {
        rings(rt, figure, limit, 1000)?;
    }
    Ok(())
}

// Fig. 1, which has four rings, at the borders of the allowance.
fn allowances(rt: &impl Print, figure: &[u16; 56]) -> io::Result<()> {
    count(rt, figure, 0)?;
    rings(rt, figure, 3, 1)?;
    count(rt, figure, 3)?;
    count(rt, figure, 4)?;
    rings(rt, figure, 0, Ring::ALLOWANCE)?;
    rings(rt, figure, 0, Ring::ALLOWANCE + 1)
}

// Fig. 1, whose four rings take 21 words: no ring allowed, too few, too few words, enough of both, and one word more.
fn rooms(rt: &impl Print, figure: &[u16; 56]) -> io::Result<()> {
    for (allowance, words) in [(0, 21), (3, 21), (4, 20), (4, 21), (4, 22)] {
        list(rt, figure, allowance, words)?;
    }
    Ok(())
}

// Cycles as long as a ring may be, and one atom longer. Four atoms at each of ten places have more than a million rings.
fn circles(rt: &impl Print) -> io::Result<()> {
    let most = Ring::LENGTH;
    for (n, places, limit, allowance) in [
        (24, 24, most, 100),
        (24, 24, most - 1, 100),
        (25, 25, most, 100),
        (40, 10, most, Ring::ALLOWANCE),
        (40, 10, 4, Ring::ALLOWANCE),
    ] {
        let table: [u16; 320] = models::circle(n, places);
        print!(rt; "circle of places {places}, ")?;
        rings(
            rt,
            &table[..usize::from(n) * Network::PLACES],
            limit,
            allowance,
        )?;
    }
    Ok(())
}

// Counts the rings of a network of at most 40 atoms: the answer, limit used, total, words, averages, and the counts above 0.
pub fn rings(rt: &impl Print, table: &[u16], limit: usize, allowance: usize) -> io::Result<()>
    requires { length table.now ≤ 320 }
{
    let n = table.len() / Network::PLACES;
    let mut dist = [0u8; 1600];
    let outcome = search::count(n, table, limit, allowance, &mut dist[..n * n]);
    println!(rt;
        "atoms {n}, limit {limit}, allowance {allowance}: {}",
        Shown(&outcome)
    )
}

// Counts the rings of seven atoms: the same, and the distances.
fn count(rt: &impl Print, table: &[u16], allowance: usize) -> io::Result<()> {
    let mut dist = [9u8; 49];
    let outcome = search::count(7, table, 0, allowance, &mut dist);
    println!(rt;
        "atoms 7, limit 0, allowance {allowance}: {}",
        Shown(&outcome)
    )?;
    say::rows(rt, &dist, 7)
}

// Lists the rings of seven atoms into so many words: the same, and the words with those after them, and the distances.
pub fn list(rt: &impl Print, table: &[u16], allowance: usize, words: usize) -> io::Result<()>
    requires { words ≤ 23 }
{
    let mut dist = [9u8; 49];
    let mut list = [9u16; 23];
    let outcome = search::list(7, table, 0, allowance, &mut dist, &mut list[..words]);
    println!(rt;
        "list atoms 7, limit 0, allowance {allowance}, words {words}: {}",
        Shown(&outcome)
    )?;
    println!(rt; "its words{}", ShownWords(&list))?;
    say::rows(rt, &dist, 7)
}
