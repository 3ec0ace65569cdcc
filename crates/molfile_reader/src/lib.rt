// The reader of molfiles.
#![tactic(auto)]

mod counts;
mod pairs;
mod rows;

ghost use Rattle.molfile.specs.Judging.{MolfileOutcome};

use crate::rows::Rows;
use bonds::Reading;
use network::Network;

// Reads a molfile into the table lent, of which nothing is changed until the whole file is found right.
pub fn read(file: &[u8], table: &mut [u16]) -> Reading
    ensures { MolfileOutcome file.now table.old table.new result }
{
    let rest = molfile_lines::skip(file, molfile::HEADER);
    let (atoms, bonds) = match counts::counts(rest, table.len()) {
        Ok(counts) => counts,
        Err((reason, value)) => return Reading::refused(reason.into(), value),
    };
    let mut rows = Rows::free(atoms);
    if let Err(refusal) = pairs::hold(molfile_lines::skip(rest, atoms + 1), bonds, &mut rows) {
        return Reading::refused(refusal, 0);
    }
    table[..Network::PLACES * atoms].copy_from_slice(rows.table());
    Reading::accepted(atoms, bonds)
}
