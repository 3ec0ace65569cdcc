// The validator of bond tables.
#![tactic(auto)]

mod faults;

ghost use Rattle.std.specs.Prelude.{◌≡◌};
ghost use Rattle.network.specs.Refusals.{told};
ghost use Rattle.network.specs.Verdict.{verdict};

use network::Refusal;

// The first fault of a bond table of n rows: refusals 1, 4, and 7 to 11.
pub fn validate(n: usize, table: &[u16]) -> Result<(), Refusal>
    ensures { told result ≡ verdict n table.now }
{
    network::sizes(n, table)?;
    faults::faults_in(n, table)
}
