// The search for shortest-path rings: counting and listing them.
#![tactic(auto)]

mod answers;
mod grow;
mod net;
mod pairs;
mod path;
mod state;
mod turn;

ghost use Rattle.census.specs.Told.{histogram_told};
ghost use Rattle.census.specs.Census.{CountOutcome, ListOutcome};

use census::{Histogram, checks};
use net::Net;
use network::{Reason, Refusal};
use state::Notes;

// Counts the shortest-path rings of at most `limit` atoms: refusals 1 to 5, 7 to 11, and 12.
pub fn count(
    n: usize,
    table: &[u16],
    limit: usize,
    allowance: usize,
    dist: &mut [u8],
) -> Result<Histogram, Refusal>
    ensures { CountOutcome n table.now limit allowance dist.old dist.new (histogram_told result) }
{
    checks::prepare(n, table, limit, allowance, dist)?;
    let used = checks::limit_used(limit);
    let mut scratch = [0u16; 1];
    let mut notes = Notes::new(allowance as u32, &mut scratch);
    let tally = grow::each_length(Net { n, table, dist }, used, &mut notes);
    if notes.found.over {
        return Err(Reason::TooManyRings.into());
    }
    Ok(answers::histogram(n, used, tally, notes.found))
}

// Lists them: counted first, and written only where there is room for all, refusal 13.
pub fn list(
    n: usize,
    table: &[u16],
    limit: usize,
    allowance: usize,
    dist: &mut [u8],
    list: &mut [u16],
) -> Result<Histogram, Refusal>
    ensures { ListOutcome n table.now limit allowance dist.old dist.new list.old list.new (histogram_told result) }
{
    let counted = count(n, table, limit, allowance, dist)?;
    if list.len() < counted.words {
        return Err(Reason::ListLength.into());
    }
    let mut notes = Notes::new(allowance as u32, list);
    grow::each_length(Net { n, table, dist }, counted.limit, &mut notes);
    Ok(counted)
}
