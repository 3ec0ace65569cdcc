// Pairs of atoms on the path: whether they are as far apart in the network as on the ring.
ghost use Rattle.std.specs.Prelude.{◌≡◌, ◌<◌, ◌≤◌, length};
ghost use Rattle.paths.specs.Search.{pair_fits, fits_before, every_pair, is_ring};

use crate::state::Search;
use ring::Ring;

impl Search<'_> {
    // Whether the path, which is whole, is the one writing of a shortest-path ring: every pair is tested.
    pub fn is_ring(&self) -> bool
        requires { length self.now.path.now ≡ self.now.k }
        ensures { let s = self.now in result ≡ is_ring s.net.n s.net.dist.now s.k s.path.now }
    {
        self.path.at(1) < self.path.at(self.k - 1) && self.every_pair()
    }

    // Whether every pair of the path, which is whole, fits.
    fn every_pair(&self) -> bool
        requires { length self.now.path.now ≡ self.now.k }
        ensures { let s = self.now in result ≡ every_pair s.net.n s.net.dist.now s.k s.path.now }
    {
        (0..self.k).all(|j| self.fits_before(j, j, self.path.at(j)))
    }

    // Whether y at place `at` fits each of the first `many` atoms.
    // Kept: a loop: by `all`, listing a silica network of 192 atoms at limit 24 takes 6.24 ms, and so 5.75.
    pub fn fits_before(&self, many: usize, at: usize, y: usize) -> bool
        requires { let s = self.now in (many ≤ length s.path.now) × (many ≤ at) × (at ≤ s.k) × (y < s.net.n) }
        ensures { let s = self.now in result ≡ fits_before s.net.n s.net.dist.now s.k s.path.now many at y }
    {
        for i in 0..many {
            if !self.pair_fits(at, y, i) {
                return false;
            }
        }
        true
    }

    // Whether y at place `at` of the ring is as far from the atom at place i as the ring says.
    pub fn pair_fits(&self, at: usize, y: usize, i: usize) -> bool
        requires { let s = self.now in (i < length s.path.now) × (i ≤ at) × (at ≤ s.k) × (y < s.net.n) }
        ensures { let s = self.now in result ≡ pair_fits s.net.n s.net.dist.now s.k s.path.now at y i }
    {
        self.net.far(self.path.at(i), y) == Ring::around(self.k, at - i)
    }
}
