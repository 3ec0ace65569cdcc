// A path: its atoms in order, first to last. In a clause it is their list.
ghost use Rattle.std.specs.Prelude.{◌≡◌, ℕ, List, [], ◌∷◌, ◌++◌, ◌<◌, ◌≤◌, length, get_or, take};
ghost use Rattle.ring.specs.Maxima.{ring_most};

use ring::Ring;
use std::marker::Model;

// Kept: an array with its length beside it, since the library has no heap.
#[derive(Drop)]
pub struct Path {
    atoms: [u16; Ring::LENGTH],
    len: usize,
}

impl Model for Path {
    ghost Value = { List ℕ };

    ghost view = { λ p. take p.len p.atoms };

    ghost invariant = { λ p. p.len ≤ ring_most };
}

impl Path {
    // The path of one atom.
    pub fn of(first: u16) -> Path
        ensures { result ≡ first ∷ [] }
    {
        let mut atoms = [0u16; Ring::LENGTH];
        atoms[0] = first;
        Path { atoms, len: 1 }
    }

    pub fn push(&mut self, atom: u16)
        requires { length self.old < ring_most }
        ensures { self.new ≡ self.old ++ (atom ∷ []) }
    {
        self.atoms[self.len] = atom;
        self.len += 1;
    }

    // Only the first `len` atoms stay.
    pub fn cut(&mut self, len: usize)
        requires { len ≤ length self.old }
        ensures { self.new ≡ take len self.old }
    {
        self.len = len;
    }

    pub fn len(&self) -> usize
        ensures { result ≡ length self.now }
    {
        self.len
    }

    // The atom at a place.
    pub fn at(&self, place: usize) -> usize
        requires { place < length self.now }
        ensures { result ≡ get_or self.now place 0 }
    {
        self.words()[place] as usize
    }

    pub fn words(&self) -> &[u16]
        ensures { result.now ≡ self.now }
    {
        &self.atoms[..self.len]
    }
}
