// Refusal 18: the first name that is not below n, or was seen earlier.
#![tactic(auto)]

ghost use Rattle.std.specs.Prelude.{◌≡◌, length};
ghost use Rattle.network.specs.Refusals.{told};
ghost use Rattle.network.specs.Verdict.{accepted};
ghost use Rattle.names.specs.Names.{name_faults};

use network::{Reason, Refusal};

// 18 at the first bad name.
pub fn name_faults(n: usize, names: &[u16]) -> Result<(), Refusal>
    ensures { told result ≡ name_faults n names.now (length names.now) 0 accepted }
{
    for (i, name) in names.iter().enumerate() {
        if n <= *name as usize || names[..i].contains(name) {
            return Err(Reason::Name.at(i));
        }
    }
    Ok(())
}
