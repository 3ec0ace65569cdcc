// The one writing of a ring.
ghost use Rattle.std.specs.Prelude.{◌≡◌, ℕ, ◌≤◌, ◌<◌, length, get_or, nat_lt};
ghost use Rattle.std.specs.List.{IsFirstBest};
ghost use Rattle.ring.specs.Maxima.{ring_least, ring_most};
ghost use Rattle.ring.specs.Writes.{WritingPadded};

use ring::Ring;

// The words of the one writing of a ring of different atoms: the smallest first, and the second smaller than the last.
pub fn one_writing(ring: &[u16]) -> [u16; Ring::LENGTH]
    requires { (ring_least ≤ length ring.now) × (length ring.now ≤ ring_most) × ((i j : ℕ) → i < j → j < length ring.now → get_or ring.now i 0 ≡ get_or ring.now j 0 → ⊥) }
    ensures { WritingPadded ring.now result }
{
    let start = least_place(ring);
    let next = ring[(start + 1) % ring.len()];
    let last = ring[(start + (ring.len() - 1)) % ring.len()];
    let written = Ring::read(ring, start, next < last).unwrap();
    written.atoms
}

// The first place whose atom no other is below.
fn least_place(ring: &[u16]) -> usize
    requires { 0 < length ring.now }
    ensures { IsFirstBest nat_lt ring.now (length ring.now) result }
{
    let mut least = 0;
    for i in 1..ring.len() {
        if ring[i] < ring[least] {
            least = i;
        }
    }
    least
}
