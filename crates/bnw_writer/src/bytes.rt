// A network written as a file.
ghost use Rattle.std.specs.Prelude.{◌≡◌, ◌+◌, ◌*◌, ◌≤◌, length, count_by};
ghost use Rattle.std.proofs.lemmas.List.Edits.{sets};
ghost use Rattle.std.specs.List.{enumerate_from};
ghost use Rattle.graph.specs.Lists.{gather};
ghost use Rattle.network.specs.Maxima.{atoms_most, places};
ghost use Rattle.bonds.specs.Bonds.{bonds_of};
ghost use Rattle.bnw.specs.File.{bond_bytes, head_of, head_length, bond_length};
ghost use Rattle.bnw_writer.specs.Words.{is_bond};

use crate::fields;
use network::Network;

// The number of bonds of a table.
pub fn count_bonds(table: &[u16]) -> usize
    ensures { result ≡ count_by (λ x. is_bond x.0 x.1) (enumerate_from 0 table.now) }
{
    // Kept: the bonds are added up, 1 or 0 for each word: by `filter` and `count`, writing 999 bonds takes 15.5 µs, and so 13.
    let mut bonds = 0;
    for (i, word) in table.iter().enumerate() {
        bonds += usize::from(is_bond(i, *word));
    }
    bonds
}

// Whether word i is a bond to a greater atom.
fn is_bond(i: usize, word: u16) -> bool
    ensures { result ≡ is_bond i word }
{
    word != Network::FREE && i / Network::PLACES < word as usize
}

// Writes the mark, the version and the counts.
pub fn write_head(n: usize, bonds: usize, file: &mut [u8])
    requires few { (n ≤ atoms_most) × (bonds ≤ places * atoms_most) }
    requires room { head_length ≤ length file.old }
    ensures { file.new ≡ sets file.old 0 (head_of n bonds) }
{
    file[..bnw::VERSION_AT].copy_from_slice(b"BNW");
    fields::put_field(bnw::VERSION as u16, file, bnw::VERSION_AT);
    fields::put_field(n as u16, file, bnw::ATOMS_AT);
    fields::put_field(bonds as u16, file, bnw::BONDS_AT);
}

// Writes the bonds of a table after the head.
pub fn write_bonds(table: &[u16], file: &mut [u8])
    requires most { length table.now ≤ places * atoms_most }
    requires room { head_length + bond_length * length (bonds_of table.now) ≤ length file.old }
    ensures { file.new ≡ sets file.old head_length (gather bond_bytes (bonds_of table.now)) }
{
    let mut at = bnw::HEAD;
    for (i, word) in table.iter().enumerate() {
        if is_bond(i, *word) {
            fields::put_field((i / Network::PLACES) as u16, file, at);
            fields::put_field(*word, file, at + 2);
            at += bnw::BOND;
        }
    }
}
