// The table that the bonds of a file define, written row by row.
ghost use Rattle.std.specs.Prelude.{◌≡◌, ℕ, ◌*◌, ◌≤◌, ◌++◌, length, map, drop};
ghost use Rattle.network.specs.Maxima.{places};
ghost use Rattle.bonds.specs.Bonds.{partners, row_of, table_of};
ghost use Rattle.bnw_reader.specs.FileBonds.{bond_from};

use crate::file_bonds::{self, BondBytes};
use network::Network;

// Writes the rows of n atoms.
pub fn fill_table(n: usize, bonds: &[BondBytes], table: &mut [u16])
    requires room { places * n ≤ length table.old }
    requires few { (x : ℕ) → length (partners (map bond_from bonds.now) x) ≤ places }
    ensures { table.new ≡ table_of n (map bond_from bonds.now) ++ drop (places * n) table.old }
{
    for x in 0..n {
        let at = Network::PLACES * x;
        fill_row(bonds, x, &mut table[at..at + Network::PLACES]);
    }
}

// Writes the row of x: its partners in the order of the bonds, then free places.
fn fill_row(bonds: &[BondBytes], x: usize, row: &mut [u16])
    requires whole { length row.old ≡ places }
    requires few { length (partners (map bond_from bonds.now) x) ≤ places }
    ensures { row.new ≡ row_of (map bond_from bonds.now) x }
{
    row.fill(Network::FREE);
    for (place, partner) in bonds
        .iter()
        .filter_map(|bytes| file_bonds::partner(bytes, x))
        .enumerate()
    {
        row[place] = partner;
    }
}
