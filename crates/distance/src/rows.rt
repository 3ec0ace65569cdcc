// The rows of the distance table, each found by passes over its own entries.
ghost use Rattle.std.specs.Prelude.{◌≡◌, ◌+◌, ◌*◌, ◌<◌, length};
ghost use Rattle.network.specs.Maxima.{places};
ghost use Rattle.network.specs.Network.{IsNetwork};
ghost use Rattle.distance.specs.Distances.{no_path, DistanceTable};
ghost use Rattle.distance.specs.Levels.{DistanceRow, offer, give, level, PassFilled};

use crate::NO_PATH;
use network::Network;

// The distances from every atom.
pub fn fill(n: usize, table: &[u16], dist: &mut [u8])
    requires { (length dist.old ≡ n * n) × IsNetwork n table.now }
    ensures { DistanceTable n table.now dist.new }
{
    for s in 0..n {
        let from = s * n;
        fill_row(table, &mut dist[from..from + n], s);
    }
}

// The distances from s: passes until one fills nothing.
// Kept: table and row as two parameters, here and below. Methods of a struct of both would say `self.new.entries.now` for `row.new`, and each
// that the table stays.
fn fill_row(table: &[u16], row: &mut [u8], s: usize)
    requires { (s < length row.old) × IsNetwork (length row.old) table.now }
    ensures { DistanceRow table.now (length row.old) s row.new }
{
    row.fill(NO_PATH);
    row[s] = 0;
    // Kept: d counted by hand, since it is a pass that fills nothing that ends it; a range would be left by a return from within, and be no plainer.
    let mut d: u8 = 0;
    while pass(table, row, d) {
        d += 1;
    }
}

// The atoms at d give d + 1; whether an entry was filled.
fn pass(table: &[u16], row: &mut [u8], d: u8) -> bool
    requires { (d + 1 < no_path) × IsNetwork (length row.old) table.now }
    ensures { (row.new ≡ level table.now d (length row.old) 0 row.old) × PassFilled row.old row.new result }
{
    let mut filled = false;
    for v in 0..row.len() {
        if row[v] == d {
            filled |= give_all(table, row, v, d + 1);
        }
    }
    filled
}

// e goes to the neighbours of v, which stand before the first free place; whether an entry was filled.
fn give_all(table: &[u16], row: &mut [u8], v: usize, e: u8) -> bool
    requires { (e < no_path) × (v < length row.old) × IsNetwork (length row.old) table.now }
    ensures { (row.new ≡ give table.now v e places 0 row.old) × PassFilled row.old row.new result }
{
    let mut filled = false;
    for p in 0..Network::PLACES {
        let neighbour = table[v * Network::PLACES + p];
        if neighbour == Network::FREE {
            return filled;
        }
        filled |= offer_to(row, neighbour, e);
    }
    filled
}

// e goes to atom w if it has no entry; whether the entry was filled.
fn offer_to(row: &mut [u8], w: u16, e: u8) -> bool
    requires { (e < no_path) × (w < length row.old) }
    ensures { (row.new ≡ offer e row.old w) × PassFilled row.old row.new result }
{
    let atom = w as usize;
    if row[atom] != NO_PATH {
        return false;
    }
    row[atom] = e;
    true
}
