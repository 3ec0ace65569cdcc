// Renumbering: the table of the same network under new numbers of its atoms.
#![tactic(auto)]

mod rows;

ghost use Rattle.network.specs.Refusals.{told};
ghost use Rattle.renumber.specs.Outcome.{RenumberOutcome};

use network::{Network, Reason, Refusal};

// Atom i gets the number names[i], and `renamed` becomes the table under these numbers: refusals 1, 4, 6, 7 to 11, and 18.
pub fn renumber(n: usize, table: &[u16], names: &[u16], renamed: &mut [u16]) -> Result<(), Refusal>
    ensures { RenumberOutcome n table.now names.now renamed.old renamed.new (told result) }
{
    network::sizes(n, table)?;
    if names.len() != n || renamed.len() != Network::PLACES * n {
        return Err(Reason::RenumberingLength.into());
    }
    validator::validate(n, table)?;
    names::name_faults(n, names)?;
    rows::rename_rows(table, names, renamed);
    Ok(())
}
