// The bonds read so far, as rows: the atoms bonded to each atom, ascending, then free places.
ghost use Rattle.std.specs.Prelude.{◌≡◌, [], ◌-◌, ◌*◌, ◌≤◌, ◌<◌, cond, take, None, Some};
ghost use Rattle.network.specs.Maxima.{atoms_most, places};
ghost use Rattle.network.specs.Verdict.{in_row};
ghost use Rattle.molfile.specs.Judging.{outside};
ghost use Rattle.molfile.specs.Rows.{Held, inserted_at, with_bond, full_row};

use network::Network;

// The rows of so many atoms; there is room for the most.
#[derive(Drop)]
pub struct Rows {
    atoms: usize,
    words: [u16; Rows::WORDS],
    ghost few: { atoms ≤ atoms_most },
}

impl Rows {
    const WORDS: usize = Network::ATOMS * Network::PLACES;

    // The rows of atoms without bonds.
    pub fn free(atoms: usize) -> Rows
        requires { atoms ≤ atoms_most }
        ensures atoms { result.atoms ≡ atoms }
        ensures held { Held result.words [] }
    {
        Rows {
            atoms,
            words: [Network::FREE; Rows::WORDS],
        }
    }

    // The atom that a bond line numbers from 1.
    pub fn atom(&self, number: u16) -> Option<u16>
        ensures { result ≡ cond (outside self.now.atoms number) None (Some (number - 1)) }
    {
        if (1..=self.atoms).contains(&number.into()) {
            Some(number - 1)
        } else {
            None
        }
    }

    // The rows as the words of a bond table.
    pub fn table(&self) -> &[u16]
        ensures { result.now ≡ take (places * self.now.atoms) self.now.words }
    {
        &self.words[..Network::PLACES * self.atoms]
    }

    // Whether x and y are bonded.
    pub fn are_bonded(&self, x: u16, y: u16) -> bool
        ensures { result ≡ in_row self.now.words y x }
    {
        network::stands_in(&self.words, y.into(), x.into())
    }

    // Whether row x has no free place.
    // Kept: that x is below the number of atoms stands here and in two contracts below; a type of atoms would be bound to no rows, and have to say it again.
    #[tactic(auto, unfolding(molfile::specs::Rows::full_row))]
    pub fn is_full(&self, x: u16) -> bool
        requires { x < self.now.atoms }
        ensures { result ≡ full_row self.now.words x }
    {
        self.words[usize::from(x) * Network::PLACES + (Network::PLACES - 1)] != Network::FREE
    }

    // Puts a bond of x and y into the rows of both.
    pub fn join(&mut self, x: u16, y: u16)
        requires { (x < self.old.atoms) × (y < self.old.atoms) }
        ensures atoms { self.new.atoms ≡ self.old.atoms }
        ensures words { self.new.words ≡ with_bond self.old.words x y }
    {
        self.insert(x, y);
        self.insert(y, x);
    }

    // Puts y in its order into row x, where there is a free place.
    fn insert(&mut self, x: u16, y: u16)
        requires { x < self.old.atoms }
        ensures atoms { self.new.atoms ≡ self.old.atoms }
        ensures words { self.new.words ≡ inserted_at self.old.words (x * places) places y }
    {
        let first = usize::from(x) * Network::PLACES;
        let mut carried = y;
        for place in first..first + Network::PLACES {
            let there = self.words[place];
            self.words[place] = there.min(carried);
            carried = there.max(carried);
        }
    }
}
