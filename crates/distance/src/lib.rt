// The table of distances between all atoms of a network: a byte for each two atoms, row by row.
#![tactic(auto)]

mod rows;

ghost use Rattle.std.specs.Prelude.{◌≡◌};
ghost use Rattle.network.specs.Refusals.{told};
ghost use Rattle.distance.specs.Distances.{no_path};
ghost use Rattle.distance.specs.Outcome.{DistancesOutcome};

use network::{Reason, Refusal};

// The byte for two atoms between which there is no path.
// Kept: a number for none, since the buffer that C lends is given it.
pub const NO_PATH: u8 = 255;

// Fills `dist` with the distances of a network: refusals 1, 4, 5, and 7 to 11.
pub fn distances(n: usize, table: &[u16], dist: &mut [u8]) -> Result<(), Refusal>
    ensures { DistancesOutcome n table.now dist.old dist.new (told result) }
{
    network::sizes(n, table)?;
    if dist.len() != n * n {
        return Err(Reason::DistanceLength.into());
    }
    validator::validate(n, table)?;
    rows::fill(n, table, dist);
    Ok(())
}

// The constant is the number of the specifications.
fn no_path_agrees()
    ensures { NO_PATH ≡ no_path }
{}
