// The bonds of a file, as a slice of the bytes of each: refusals 26 and 27.
ghost use Rattle.std.specs.Prelude.{◌≡◌, ◌<◌, length};
ghost use Rattle.network.specs.Refusals.{told, number_or_0};
ghost use Rattle.bonds.specs.Scan.{first_bond};
ghost use Rattle.bnw.specs.Reading.{is_in_order, file_bond_fault};
ghost use Rattle.bnw_reader.specs.FileBonds.{bond_from, among, partner_if, partners_in};

use crate::fields;
use bonds::Bond;
use network::{Network, Reason, Refusal};

// The bytes of a bond.
pub type BondBytes = [u8; bnw::BOND];

// The first of refusals 26 and 27 among the bonds of a file.
pub fn bond_faults(n: usize, bonds: &[BondBytes]) -> Result<(), Refusal>
    ensures { told result ≡ first_bond (file_bond_fault n (among bonds.now)) (length bonds.now) 0 }
{
    for k in 0..bonds.len() {
        if let Some(reason) = bond_fault(n, bonds, k) {
            return Err(reason.at(k));
        }
    }
    Ok(())
}

// Refusal 26 or 27 at bond k.
fn bond_fault(n: usize, bonds: &[BondBytes], k: usize) -> Option<Reason>
    requires { k < length bonds.now }
    ensures { number_or_0 result ≡ file_bond_fault n (among bonds.now) k }
{
    let bond = bond(&bonds[k]);
    let first = bond.first as usize;
    let second = bond.second as usize;
    if n <= first || n <= second || second <= first || !is_in_order(bonds, k) {
        return Some(Reason::FileBond);
    }
    let before = &bonds[..k];
    if Network::PLACES <= partner_count(before, first)
        || Network::PLACES <= partner_count(before, second)
    {
        return Some(Reason::NinthBond);
    }
    None
}

// The bond of four bytes.
fn bond(bytes: &BondBytes) -> Bond
    ensures { result ≡ bond_from bytes.now }
{
    Bond {
        first: fields::field(bytes, 0),
        second: fields::field(bytes, 2),
    }
}

// Whether bond k comes after the previous one, if there is one.
#[tactic(auto, unfolding(bnw::specs::Reading::is_in_order, bnw::specs::Reading::earlier_bond))]
fn is_in_order(bonds: &[BondBytes], k: usize) -> bool
    requires { k < length bonds.now }
    ensures { result ≡ is_in_order (among bonds.now) k }
{
    k == 0 || bond(&bonds[k - 1]) < bond(&bonds[k])
}

// How many of these bonds are bonds of x.
fn partner_count(bonds: &[BondBytes], x: usize) -> usize
    ensures { result ≡ length (partners_in bonds.now x) }
{
    bonds.iter().filter_map(|bytes| partner(bytes, x)).count()
}

// The other atom of a bond, where it is one of x.
#[tactic(auto, unfolding(crate::specs::FileBonds::partner_if))]
pub fn partner(bytes: &BondBytes, x: usize) -> Option<u16>
    ensures { result ≡ partner_if x (bond_from bytes.now) }
{
    let bond = bond(bytes);
    if bond.first as usize == x {
        Some(bond.second)
    } else if bond.second as usize == x {
        Some(bond.first)
    } else {
        None
    }
}
