// The checks that come before the search, in the order of their numbers.
ghost use Rattle.std.specs.Prelude.{◌≡◌};
ghost use Rattle.network.specs.Refusals.{told};
ghost use Rattle.census.specs.Census.{limit_of};
ghost use Rattle.census.specs.Prepared.{Prepared};

use network::{Network, Reason, Refusal};
use ring::Ring;

// Refusals 1 to 5 and 7 to 11; where there is none, the distance buffer is filled.
pub fn prepare(
    n: usize,
    table: &[u16],
    limit: usize,
    allowance: usize,
    dist: &mut [u8],
) -> Result<(), Refusal>
    ensures { Prepared n table.now limit allowance dist.old dist.new (told result) }
{
    Network::of(n).ok_or(Reason::AtomCount)?;
    if !(Ring::LEAST..=Ring::LENGTH).contains(&limit_used(limit)) {
        return Err(Reason::Limit.into());
    }
    if !(1..=Ring::ALLOWANCE).contains(&allowance) {
        return Err(Reason::Allowance.into());
    }
    distance::distances(n, table, dist)
}

// The limit that is used: 0 stands for the default.
// Kept: 0 for a limit that is not given, since document 01 and the calls from C have it so.
pub fn limit_used(limit: usize) -> usize
    ensures { result ≡ limit_of limit }
{
    if limit == 0 { Ring::DEFAULT } else { limit }
}
