// What a search has found: rings counted, and written where they fit.
#![tactic(auto)]

ghost use Rattle.std.specs.Prelude.{◌≡◌, ◌∷◌, ◌+◌, ◌<◌, ◌≤◌, length};
ghost use Rattle.std.proofs.lemmas.List.Edits.{sets};
ghost use Rattle.ring.specs.Maxima.{ring_most};
ghost use Rattle.census.specs.Census.{plain};
ghost use Rattle.notes.specs.Noting.{state, Fits, note, note_fit};

use ring::Ring;

// The rings found, the words that they take, and whether there were more than the allowance.
// Kept: a flag and no Option or enum, because the rings and words found stand beside it in either case, and `note_fit`, which
// docs/CLAIMS.md names, is said of these three.
#[derive(Clone, Copy)]
pub struct Found {
    pub rings: u32,
    pub at: usize,
    pub over: bool,
}

// A ring is noted. One that is too long is left out, and so is any where more words are taken than the rings found can take.
// Kept: the allowance, what is found and the list one by one: `search: Notes` holds the three together, and a second struct here would be no plainer.
pub fn note(ring: &[u16], allowance: u32, found: Found, list: &mut [u16]) -> Found
    ensures { state result list.new ≡ note_fit allowance ring.now (state found list.old) }
{
    let most = (Ring::LENGTH + 1) * found.rings as usize;
    if Ring::LENGTH < ring.len() || most < found.at {
        return found;
    }
    add(ring, allowance, found, list)
}

// A ring is counted, and written where it fits.
fn add(ring: &[u16], allowance: u32, found: Found, list: &mut [u16]) -> Found
    requires { (length ring.now ≤ ring_most) × Fits found }
    ensures { state result list.new ≡ note length plain allowance ring.now (state found list.old) }
{
    if found.over || allowance <= found.rings {
        return Found {
            over: true,
            ..found
        };
    }
    if found.at + ring.len() < list.len() {
        write_ring(ring, found.at, list);
    }
    Found {
        rings: found.rings + 1,
        at: found.at + (ring.len() + 1),
        over: false,
    }
}

// The ring's length and atoms are written from `at` on.
// Kept: the place in the list beside it, since the contract says what becomes of the whole list; and a loop, since `copy_from_slice` makes the
// archive for C need a `memmove` from outside, as it did not before.
fn write_ring(ring: &[u16], at: usize, list: &mut [u16])
    requires { (length ring.now ≤ ring_most) × (at + length ring.now < length list.old) }
    ensures { list.new ≡ sets list.old at (length ring.now ∷ ring.now) }
{
    list[at] = ring.len() as u16;
    for i in 0..ring.len() {
        list[at + 1 + i] = ring[i];
    }
}
