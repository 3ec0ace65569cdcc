// The first pair of places of a candidate whose network distance is shorter than the ring distance.
ghost use Rattle.std.specs.Prelude.{◌≡◌, ◌*◌, ◌≤◌, ◌<◌, length};
ghost use Rattle.network.specs.Maxima.{atoms_most};
ghost use Rattle.candidate_faults.specs.CandidateVerdict.{AtomsBelow};
ghost use Rattle.candidate.specs.ShorterPairs.{short, FirstShort};

use ring::Ring;

// The first two places, by the first and then the second, that are nearer to each other than round the ring.
pub fn first_short(n: usize, ring: &[u16], dist: &[u8]) -> Option<(usize, usize)>
    requires { (n ≤ atoms_most) × (length dist.now ≡ n * n) × AtomsBelow n ring.now }
    ensures { FirstShort n dist.now ring.now result }
{
    for i in 0..ring.len() {
        for j in i + 1..ring.len() {
            if is_short(n, ring, dist, i, j) {
                return Some((i, j));
            }
        }
    }
    None
}

// Whether the atoms at i and j are nearer than round the ring.
fn is_short(n: usize, ring: &[u16], dist: &[u8], i: usize, j: usize) -> bool
    requires { (n ≤ atoms_most) × (length dist.now ≡ n * n) × AtomsBelow n ring.now × (i < j) × (j < length ring.now) }
    ensures { result ≡ short n dist.now ring.now i j }
{
    let from = ring[i] as usize;
    let to = ring[j] as usize;
    let bonds = dist[from * n + to] as usize;
    bonds < Ring::around(ring.len(), j - i)
}
