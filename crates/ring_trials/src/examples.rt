// P1 to P11: their rings with averages, and the cycles of P5 to P7 that an outside atom cuts short.
ghost use Rattle.std.specs.Prelude.{◌≤◌, length};

use crate::{candidates, models, searches};
use network::Network;
use std::io;

pub fn run(rt: &impl Print, figure: &[u16; 56]) -> io::Result<()> {
    figures(rt, figure)?;
    cut_short(rt)?;
    solids(rt)?;
    cycle(rt)
}

// P1 to P4: one atom, Fig. 1 at two limits, a bond across a cycle.
fn figures(rt: &impl Print, figure: &[u16; 56]) -> io::Result<()> {
    example(rt, 1, 1, "", 12)?;
    rings(rt, 2, figure, 12)?;
    rings(rt, 3, figure, 4)?;
    example(rt, 4, 6, "01 03 05 12 23 34 45", 12)
}

// P5 to P7: cycles of eight and seven atoms, with one atom more across them.
fn cut_short(rt: &impl Print) -> io::Result<()> {
    let examples: [(usize, usize, &str, &[u16]); 3] = [
        (
            5,
            9,
            "01 07 08 12 23 34 45 48 56 67",
            &[0, 1, 2, 3, 4, 5, 6, 7],
        ),
        (
            6,
            9,
            "01 05 12 18 23 34 45 56 67 78",
            &[1, 2, 3, 4, 5, 6, 7, 8],
        ),
        (7, 8, "01 06 12 23 34 37 45 56 67", &[0, 1, 2, 3, 4, 5, 6]),
    ];
    for (p, n, pairs, cycle) in examples {
        let table: [u16; 72] = models::bonds(pairs);
        let rows = &table[..n * Network::PLACES];
        rings(rt, p, rows, 12)?;
        candidates::test(rt, rows, cycle)?;
    }
    Ok(())
}

// P8 to P10: the cube, four atoms all bonded, two triangles.
fn solids(rt: &impl Print) -> io::Result<()> {
    example(rt, 8, 8, "01 02 04 13 15 23 26 37 45 46 57 67", 12)?;
    example(rt, 9, 4, "01 02 03 12 13 23", 12)?;
    example(rt, 10, 6, "01 02 12 34 35 45", 12)
}

// P11: a cycle at two limits.
fn cycle(rt: &impl Print) -> io::Result<()> {
    for limit in [5, 4] {
        example(rt, 11, 5, "01 04 12 23 34", limit)?;
    }
    Ok(())
}

// P's rings at a limit, by its bonds.
fn example(rt: &impl Print, p: usize, n: usize, pairs: &str, limit: usize) -> io::Result<()>
    requires { n ≤ 9 }
{
    let table: [u16; 72] = models::bonds(pairs);
    rings(rt, p, &table[..n * Network::PLACES], limit)
}

fn rings(rt: &impl Print, p: usize, table: &[u16], limit: usize) -> io::Result<()>
    requires { length table.now ≤ 320 }
{
    print!(rt; "P {p}, ")?;
    searches::rings(rt, table, limit, 100)
}
