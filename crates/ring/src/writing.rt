// A ring read from one of its places on.
ghost use Rattle.std.specs.Prelude.{◌≡◌, ◌<◌, ◌≤◌, length};
ghost use Rattle.ring.specs.Maxima.{ring_most};
ghost use Rattle.ring.specs.Writes.{as_ring, place_at, read_from};

use crate::Ring;

// The ring read from a place on, onwards or backwards.
pub fn read(ring: &[u16], start: usize, onwards: bool) -> Ring
    requires { (start < length ring.now) × (length ring.now ≤ ring_most) }
    ensures { result ≡ as_ring (read_from ring.now start onwards) }
{
    let mut atoms = [0u16; Ring::LENGTH];
    for i in 0..ring.len() {
        atoms[i] = ring[place_at(ring.len(), start, onwards, i)];
    }
    Ring {
        len: ring.len(),
        atoms,
    }
}

// The place of a ring of k that is read i after the start.
fn place_at(k: usize, start: usize, onwards: bool, i: usize) -> usize
    requires { (start < k) × (i < k) × (k ≤ ring_most) }
    ensures { (result ≡ place_at k start onwards i) × (result < k) }
{
    if onwards {
        (start + i) % k
    } else {
        (start + (k - i)) % k
    }
}
