// A network with its distances: the bonds and the distances of its atoms are looked up in it.
ghost use Rattle.std.specs.Prelude.{◌≡◌, ◌*◌, ◌<◌, ◌≤◌, length};
ghost use Rattle.network.specs.Maxima.{atoms_most, places};
ghost use Rattle.network.specs.Network.{word};
ghost use Rattle.distance.specs.Distances.{distance};
ghost use Rattle.paths.specs.Shown.{Ends};
ghost use Rattle.search.specs.Near.{FirstAt};

use network::Network;

// n atoms, their bond table, and the distances between them.
#[derive(Clone, Copy)]
pub struct Net<'a> {
    pub n: usize,
    pub table: &'a [u16],
    pub dist: &'a [u8],
    ghost few: { n ≤ atoms_most },
    ghost rows: { length table.now ≡ places * n },
    ghost packed: { Ends n table.now },
    ghost square: { length dist.now ≡ n * n },
}

impl Net<'_> {
    // What stands at a place of an atom's row.
    // Kept: the word, and no Option of a neighbour: with one, listing a silica network of 192 atoms at limit 24 takes 6.04 ms, and so 5.75.
    pub fn word(&self, atom: usize, place: usize) -> u16
        requires { (atom < self.now.n) × (place < places) }
        ensures { result ≡ word self.now.table.now atom place }
    {
        self.table[atom * Network::PLACES + place]
    }

    // The distance from a to b.
    pub fn far(&self, a: usize, b: usize) -> usize
        requires { (a < self.now.n) × (b < self.now.n) }
        ensures { result ≡ distance self.now.dist.now self.now.n a b }
    {
        self.dist[a * self.n + b] as usize
    }

    // The first atom from `from` on whose distance from a is w.
    // Kept: two atoms at a time: one at a time, by a `for`, that network takes 6.27 ms, and so 5.75.
    pub fn next_at(&self, a: usize, w: usize, from: usize) -> Option<usize>
        requires { (a < self.now.n) × (from ≤ self.now.n) }
        ensures { FirstAt self.now.n self.now.dist.now a w from result }
    {
        let mut y = from;
        while y + 1 < self.n {
            if self.far(a, y) == w {
                return Some(y);
            }
            if self.far(a, y + 1) == w {
                return Some(y + 1);
            }
            y += 2;
        }
        if y < self.n && self.far(a, y) == w {
            Some(y)
        } else {
            None
        }
    }
}
