// The head of a file: refusals 19 to 25, and the count that goes with 22 and 23.
ghost use Rattle.std.specs.Prelude.{◌≡◌, length, IfOk, IfErr};
ghost use Rattle.network.specs.Refusals.{number_of};
ghost use Rattle.bnw.specs.Reading.{head_fault, read_value};
ghost use Rattle.bnw_reader.specs.FileBonds.{Holds};

use crate::fields;
use crate::file_bonds::BondBytes;
use network::{Network, Reason};

// What a file with a right head holds: so many atoms, and the bytes of each bond.
#[derive(Drop)]
pub struct Contents<'a> {
    pub atoms: usize,
    pub bonds: &'a [BondBytes],
}

// The contents of a file, where the table lent has `room` words; or the first of refusals 19 to 25, with the count that it names, or 0.
pub fn contents_of(file: &[u8], room: usize) -> Result<Contents<'_>, (Reason, i32)>
    ensures right { IfOk result (λ contents. Holds file.now room contents.atoms contents.bonds.now) }
    ensures refused { IfErr result (λ refusal. (number_of refusal.0 ≡ head_fault file.now room) × (refusal.1 ≡ read_value file.now (number_of refusal.0))) }
{
    if file.len() < bnw::HEAD {
        return Err((Reason::FileShort, 0));
    }
    if !file.starts_with(b"BNW") {
        return Err((Reason::Mark, 0));
    }
    if fields::field(file, bnw::VERSION_AT) as usize != bnw::VERSION {
        return Err((Reason::Version, 0));
    }
    let atoms = fields::field(file, bnw::ATOMS_AT);
    if !(1..=Network::ATOMS).contains(&(atoms as usize)) {
        return Err((Reason::FileAtoms, bnw::signed(atoms)));
    }
    let bonds = fields::field(file, bnw::BONDS_AT);
    if bnw::BONDS < bonds as usize {
        return Err((Reason::FileBonds, bnw::signed(bonds)));
    }
    if file.len() != bnw::HEAD + bnw::BOND * bonds as usize {
        return Err((Reason::FileLength, 0));
    }
    if room < Network::PLACES * atoms as usize {
        return Err((Reason::TableShort, 0));
    }
    let (bonds, _) = file[bnw::HEAD..].as_chunks::<{ bnw::BOND }>();
    Ok(Contents {
        atoms: atoms as usize,
        bonds,
    })
}
