// The test of one candidate ring.
#![tactic(auto)]

mod pairs;
mod writing;

ghost use Rattle.network.specs.Refusals.{told};
ghost use Rattle.candidate.specs.Told.{tested_told};
ghost use Rattle.candidate.specs.CandidateOutcome.{FillOutcome, CandidateOutcome};

use network::Refusal;
use ring::Ring;

// What a candidate is found to be: a shortest-path ring, in its one writing, or a cycle with a pair of places whose network distance is
// shorter, the first.
#[derive(Clone, Copy)]
pub enum Candidate {
    Ring([u16; Ring::LENGTH]),
    CutShort(usize, usize),
}

// Tests one candidate ring, and fills `dist` with the distances unless it is refused: refusals 1, 4, 5, 7 to 11, and 14 to 17.
pub fn test(n: usize, table: &[u16], ring: &[u16], dist: &mut [u8]) -> Result<Candidate, Refusal>
    ensures { CandidateOutcome n table.now ring.now dist.old dist.new (tested_told result) }
{
    fill(n, table, ring, dist)?;
    Ok(match pairs::first_short(n, ring, dist) {
        Some((first, second)) => Candidate::CutShort(first, second),
        None => Candidate::Ring(writing::one_writing(ring)),
    })
}

// Fills `dist` with the distances unless the candidate is refused.
fn fill(n: usize, table: &[u16], ring: &[u16], dist: &mut [u8]) -> Result<(), Refusal>
    ensures { FillOutcome n table.now ring.now dist.old dist.new (told result) }
{
    candidate_faults::faults_of(n, table, ring, dist)?;
    distance::distances(n, table, dist)
}
