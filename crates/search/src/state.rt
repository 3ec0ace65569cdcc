// What a search for the rings of one length works on: the path that it has come, and the notes of what it has found.
ghost use Rattle.std.specs.Prelude.{◌≤◌, length};
ghost use Rattle.ring.specs.Maxima.{ring_most};
ghost use Rattle.notes.specs.Noting.{Fits};
ghost use Rattle.search.specs.Given.{Given};

use crate::net::Net;
use crate::path::Path;
use notes::Found;

// Where a search for the rings of k atoms stands: its path is to grow to one.
#[derive(Clone, Copy)]
pub struct Search<'a> {
    pub net: Net<'a>,
    pub k: usize,
    pub path: &'a Path,
    ghost given: { Given net.n k path.now },
}

// The rings found, counted, and written in the list where they fit.
#[derive(Drop)]
pub struct Notes<'a> {
    pub allowance: u32,
    pub found: Found,
    pub list: &'a mut [u16],
    ghost fits: { Fits found },
}

impl Notes<'_> {
    ghost use Rattle.std.specs.Prelude.{◌≡◌, [], ◌∷◌};
    ghost use Rattle.notes.specs.Noting.{none};
    ghost use Rattle.search.specs.State.{HasNoted};

    // Notes of no ring.
    pub fn new<'a>(allowance: u32, list: &'a mut [u16]) -> Notes<'a>
        ensures empty { (result.allowance ≡ allowance) × (result.found ≡ none) × (result.list.now ≡ list.old) }
        ensures same_list { result.list.ghost_name ≡ list.entry.ghost_name }
    {
        let found = Found {
            rings: 0,
            at: 0,
            over: false,
        };
        Notes {
            allowance,
            found,
            list,
        }
    }

    // A ring is noted.
    pub fn note(&mut self, ring: &[u16])
        requires { length ring.now ≤ ring_most }
        ensures noted { HasNoted (ring.now ∷ []) self.old self.new }
        ensures same_list { self.new.list.ghost_name ≡ self.old.list.ghost_name }
    {
        self.found = notes::note(ring, self.allowance, self.found, self.list);
    }
}
