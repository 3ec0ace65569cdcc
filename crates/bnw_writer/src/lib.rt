// The writer of network files.
#![tactic(auto)]

mod bytes;
mod fields;

ghost use Rattle.bnw.specs.Writing.{WriteOutcome, told_bytes};

use network::{Reason, Refusal};

// Writes the file of a network into the bytes lent, and answers how many it has.
pub fn write(n: usize, table: &[u16], file: &mut [u8]) -> Result<usize, Refusal>
    ensures { WriteOutcome n table.now file.old file.new (told_bytes result) }
{
    validator::validate(n, table)?;
    let bonds = bytes::count_bonds(table);
    let length = bnw::HEAD + bnw::BOND * bonds;
    if file.len() < length {
        return Err(Reason::FileRoom.into());
    }
    bytes::write_head(n, bonds, file);
    bytes::write_bonds(table, file);
    Ok(length)
}
