// The validator and the distance table: refusals 1, 4, 5 and 7 to 11, from both sides of their borders.
ghost use Rattle.std.specs.Prelude.{◌≤◌};

use crate::word;
use network::{Answer, Network};
use say::{Shown, ShownWords};
use std::io;

pub fn run(rt: &impl Print, figure: &[u16]) -> io::Result<()> {
    sizes(rt)?;
    neighbours(rt)?;
    orders(rt)?;
    distances(rt, figure)?;
    apart(rt)
}

// 1 and 4: the number of atoms and the length of the table.
fn sizes(rt: &impl Print) -> io::Result<()> {
    let most = Network::ATOMS;
    let table = [Network::FREE; (Network::ATOMS + 1) * Network::PLACES];
    for (n, words) in [
        (0, 0),
        (1, Network::PLACES),
        (most, most * Network::PLACES),
        (most + 1, (most + 1) * Network::PLACES),
        (2, 15),
        (2, 16),
        (2, 17),
    ] {
        judge(rt, n, &table[..words])?;
    }
    Ok(())
}

// 7 and 11: neighbours that are no atoms, do not answer, and answer.
fn neighbours(rt: &impl Print) -> io::Result<()> {
    for (n, letters) in [
        (2, b"1-----------------------"),
        (2, b"1-------0---------------"),
        (3, b"------------------------"),
        (3, b"3-----------------------"),
        (3, b"2-----------------------"),
        (3, b"2---------------0-------"),
    ] {
        rows(rt, n, letters)?;
    }
    Ok(())
}

// 8 to 10: neighbours after a free place, own atoms, and neighbours out of order, twice and in order.
fn orders(rt: &impl Print) -> io::Result<()> {
    for letters in [
        b"2-1-------------0-------",
        b"2-0-------------0-------",
        b"20--------------0-------",
        b"21--------------0-------",
        b"22--------------0-------",
        b"12--------------0-------",
        b"12------0-------0-------",
        b"12------01------0-------",
    ] {
        rows(rt, 3, letters)?;
    }
    Ok(())
}

// The first rows of the table so written as that of n atoms.
fn rows(rt: &impl Print, n: usize, letters: &[u8; 24]) -> io::Result<()>
    requires { n ≤ 3 }
{
    let table = letters.map(word);
    print!(rt; "rows{}, ", ShownWords(&table))?;
    judge(rt, n, &table[..n * Network::PLACES])
}

fn judge(rt: &impl Print, n: usize, table: &[u16]) -> io::Result<()> {
    let words = table.len();
    let answer: Answer = validator::validate(n, table).into();
    println!(rt; "validate atoms {n}, words {words}: {}", Shown(&answer))
}

// 5: the distances of Fig. 1 into too few bytes, too many, and as many as they are.
fn distances(rt: &impl Print, figure: &[u16]) -> io::Result<()> {
    for bytes in [48, 50, 49] {
        let mut dist = [9u8; 56];
        let answer: Answer = distance::distances(7, figure, &mut dist[..bytes]).into();
        println!(rt; "distances, bytes {bytes}: {}", Shown(&answer))?;
        say::rows(rt, &dist, 7)?;
    }
    Ok(())
}

// Two atoms apart have no path.
fn apart(rt: &impl Print) -> io::Result<()> {
    let mut dist = [9u8; 4];
    let _ = distance::distances(2, &[Network::FREE; 16], &mut dist);
    println!(rt; "distances, two atoms apart")?;
    say::rows(rt, &dist, 2)
}
