// Networks to try, built bond by bond in ascending order, so that rows ascend.
ghost use Rattle.std.specs.Prelude.{◌<◌};

use network::Network;

// y at the first free place of row x, where there is one.
fn append(table: &mut [u16], x: u16, y: u16) {
    if let Some(row) = table.chunks_mut(Network::PLACES).nth(usize::from(x))
        && let Some(place) = row.iter_mut().find(|place| **place == Network::FREE)
    {
        *place = y;
    }
}

// A bond.
fn join(table: &mut [u16], x: u16, y: u16) {
    append(table, x, y);
    append(table, y, x);
}

// The network with these bonds, each written as its two atoms, `01 04 12`.
pub fn bonds<const WORDS: usize>(pairs: &str) -> [u16; WORDS] {
    let mut table = [Network::FREE; WORDS];
    for pair in pairs.as_bytes().chunks(3) {
        if let [x, y, ..] = pair {
            join(&mut table, atom(*x), atom(*y));
        }
    }
    table
}

// The atom that a digit names.
fn atom(digit: u8) -> u16 {
    u16::from(digit % b'0')
}

// The paper's Fig. 1, a to g as 0 to 6.
pub fn figure() -> [u16; 56] {
    bonds("01 04 12 13 25 35 36 45 56")
}

// n atoms, one after the other around a circle of so many places, each bonded to those at the places beside its own.
pub fn circle<const WORDS: usize>(n: u16, places: u16) -> [u16; WORDS]
    requires { 0 < places }
{
    let mut table = [Network::FREE; WORDS];
    for x in 0..n {
        for y in x + 1..n {
            let gap = (y - x) % places;
            if gap == 1 || gap == places - 1 {
                join(&mut table, x, y);
            }
        }
    }
    table
}
