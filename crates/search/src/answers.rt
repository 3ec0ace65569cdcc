// The histogram of an accepted call.
ghost use Rattle.std.specs.Prelude.{◌≡◌, ◌*◌, ◌≤◌, Ok};
ghost use Rattle.network.specs.Network.{Counted};
ghost use Rattle.ring.specs.Maxima.{ring_most, allowance_most};
ghost use Rattle.census.specs.Told.{histogram_told};
ghost use Rattle.census.specs.Census.{census_with};

use crate::grow::Tally;
use census::Histogram;
use notes::Found;

// What an accepted call says of the rings found.
pub fn histogram(n: usize, limit: usize, tally: Tally, found: Found) -> Histogram
    requires counted { Counted n }
    requires bounded { tally.lengths ≤ ring_most * allowance_most }
    ensures { histogram_told (Ok result) ≡ census_with n limit tally.counts found.rings tally.lengths found.at }
{
    let Tally { counts, lengths } = tally;
    let averages = averages::averages_of(n as u32, found.rings, lengths as u32);
    Histogram {
        limit,
        counts,
        total: found.rings,
        words: found.at,
        averages,
    }
}
