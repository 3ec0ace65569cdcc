// Where the search turns back: tests that every ring passes, so that no ring is lost by them.
ghost use Rattle.std.specs.Prelude.{◌≡◌, [], ◌∷◌, ◌++◌, ◌/◌, ◌<◌, ◌≤◌, length};
ghost use Rattle.paths.specs.Search.{follows};
ghost use Rattle.paths.specs.Turn.{antipodes, last_above, look_ahead, may_follow, Hint};

use crate::state::Search;
use ring::Ring;

impl Search<'_> {
    ghost use Rattle.search.specs.State.{Looked};

    // Whether a may follow on the path: none if not, or where the next look ahead is to start.
    pub fn may_follow(&self, a: usize, from: usize) -> Option<usize>
        requires inside { (a < self.now.net.n) × (length self.now.path.now < self.now.k) }
        requires hint { let s = self.now in Hint s.net.n s.net.dist.now s.k s.path.now from }
        ensures { let s = self.now in Looked (follows (may_follow s.net.n s.net.dist.now s.k) s.path.now a) s a result }
    {
        let len = self.path.len();
        if self.path.at(0) < a && self.pair_fits(len, a, 0) && self.closes(a) {
            if len <= self.k / 2 {
                return self.look_ahead(a, from);
            }
            if self.across(a) {
                return Some(from);
            }
        }
        None
    }

    // Whether a next on the path, which is past half the ring, fits the atoms that stand across the ring from it.
    fn across(&self, a: usize) -> bool
        requires inside { let s = self.now in (a < s.net.n) × (s.k / 2 < length s.path.now) × (length s.path.now < s.k) }
        ensures { let s = self.now in result ≡ antipodes s.net.n s.net.dist.now s.k s.path.now a }
    {
        let len = self.path.len();
        let half = self.k / 2;
        self.pair_fits(len, a, len - half)
            && (half + half == self.k || self.pair_fits(len, a, len - half - 1))
    }

    // Whether a is above the second atom, if its place is the last.
    fn closes(&self, a: usize) -> bool
        ensures { let s = self.now in result ≡ last_above s.k s.path.now a }
    {
        self.path.len() + 1 != self.k || self.path.at(1) < a
    }

    // The first atom from `from` on that fits at the place just past half the ring, if any.
    fn look_ahead(&self, a: usize, from: usize) -> Option<usize>
        requires inside { let s = self.now in (a < s.net.n) × (length s.path.now ≤ s.k / 2) }
        requires hint { let s = self.now in Hint s.net.n s.net.dist.now s.k s.path.now from }
        ensures { let s = self.now in Looked (look_ahead s.net.n s.net.dist.now s.k s.path.now a) s a result }
    {
        let len = self.path.len();
        let at = self.k / 2 + 1;
        let w = Ring::around(self.k, at - len);
        // Kept: each y is asked for by a call from the one before on, so there is no range to go over.
        let mut next = self.net.next_at(a, w, from);
        while let Some(y) = next {
            if self.fits_before(len, at, y) {
                return next;
            }
            next = self.net.next_at(a, w, y + 1);
        }
        None
    }
}
