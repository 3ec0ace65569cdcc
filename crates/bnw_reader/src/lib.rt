// The reader of network files.
#![tactic(auto)]

mod fields;
mod file_bonds;
mod head;
mod rows;

ghost use Rattle.bnw.specs.Reading.{ReadOutcome};

use bonds::Reading;

// Reads a file into the table lent, of which nothing is changed until the whole file is found right.
pub fn read(file: &[u8], table: &mut [u16]) -> Reading
    ensures { ReadOutcome file.now table.old table.new result }
{
    let contents = match head::contents_of(file, table.len()) {
        Ok(contents) => contents,
        Err((reason, value)) => return Reading::refused(reason.into(), value),
    };
    if let Err(refusal) = file_bonds::bond_faults(contents.atoms, contents.bonds) {
        return Reading::refused(refusal, 0);
    }
    rows::fill_table(contents.atoms, contents.bonds, table);
    Reading::accepted(contents.atoms, contents.bonds.len())
}
