// The checks of a candidate ring, up to refusal 17.
#![tactic(auto)]

ghost use Rattle.std.specs.Prelude.{◌≡◌, ℕ, ◌<◌};
ghost use Rattle.network.specs.Refusals.{told};
ghost use Rattle.candidate_faults.specs.CandidateVerdict.{ring_verdict, candidate_verdict, RefusesFirst};

use network::{Reason, Refusal};
use ring::Ring;

// The first of refusals 1, 4, 5, 7 to 11, and 14 to 17.
pub fn faults_of(n: usize, table: &[u16], ring: &[u16], dist: &[u8]) -> Result<(), Refusal>
    ensures { told result ≡ candidate_verdict n table.now ring.now dist.now }
{
    network::sizes(n, table)?;
    if dist.len() != n * n {
        return Err(Reason::DistanceLength.into());
    }
    validator::validate(n, table)?;
    ring_faults(n, table, ring)
}

// The first of refusals 14 to 17.
fn ring_faults(n: usize, table: &[u16], ring: &[u16]) -> Result<(), Refusal>
    ensures { told result ≡ ring_verdict n table.now ring.now }
{
    Ring::of(ring).ok_or(Reason::CandidateLength)?;
    refuse_first(
        ring.len(),
        Reason::CandidateNoAtom,
        |i| n <= ring[i] as usize,
    )?;
    refuse_first(
        ring.len(),
        Reason::CandidateTwice,
        |i| ring[..i].contains(&ring[i]),
    )?;
    refuse_first(ring.len(), Reason::CandidateApart, |i| {
        !network::stands_in(table, ring[(i + 1) % ring.len()] as usize, ring[i] as usize)
    })
}

// Refuses for this reason at the first of so many places that is bad.
fn refuse_first<F: Fn(usize) -> bool>(
    places: usize,
    reason: Reason,
    is_bad: F,
) -> Result<(), Refusal>
    requires { (i : ℕ) → i < places → F.pre is_bad i }
    ensures { RefusesFirst (F.post is_bad) reason places (told result) }
{
    for place in 0..places {
        if is_bad(place) {
            return Err(reason.at(place));
        }
    }
    Ok(())
}
