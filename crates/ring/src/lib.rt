// The ring type with its maxima.
#![tactic(auto)]

mod writing;

ghost use Rattle.std.specs.Prelude.{◌≡◌, ◌+◌, ◌-◌, ◌^◌, ◌<◌, ◌≤◌, min};
ghost use Rattle.graph.specs.Graph.{around};
ghost use Rattle.ring.specs.Maxima.{ring_least, ring_most, limit_default, allowance_most};
ghost use Rattle.ring.specs.Writes.{ring_of, ring_read};

// A ring of `len` atoms, in order round the ring; the words after them are 0.
// Kept: an array with its length beside it, since the library has no heap.
#[derive(Drop)]
pub struct Ring {
    pub len: usize,
    pub atoms: [u16; Ring::LENGTH],
}

impl Ring {
    // The fewest atoms of a ring.
    pub const LEAST: usize = 3;

    // The most atoms of a ring that is searched for, and so the greatest limit.
    pub const LENGTH: usize = 24;

    // The limit that 0 stands for.
    pub const DEFAULT: usize = 12;

    // The most rings that a search may be allowed.
    pub const ALLOWANCE: usize = 1000000;

    // The ring of these atoms, where they are neither too few nor too many.
    pub fn of(words: &[u16]) -> Option<Ring>
        ensures { result ≡ ring_of words.now }
    {
        Ring::read(words, 0, true)
    }

    // The ring of these atoms read from a place on, onwards or backwards, where there is such a ring and such a place.
    pub fn read(words: &[u16], start: usize, onwards: bool) -> Option<Ring>
        ensures { result ≡ ring_read words.now start onwards }
    {
        if (Ring::LEAST..=Ring::LENGTH).contains(&words.len()) && start < words.len() {
            Some(writing::read(words, start, onwards))
        } else {
            None
        }
    }

    // The shorter way round a ring of k between places g apart. Where the ring has fewer places there is no such way, and the
    // difference is taken round at 2^64.
    pub fn around(k: usize, g: usize) -> usize
        ensures { (g ≤ k → result ≡ around k g) × (k < g → result ≡ min g (k + 2 ^ 64 - g)) }
    {
        let back = std::num::wrapping_sub_usize(k, g);
        if g < back { g } else { back }
    }
}

// The constants of the type are the numbers of the specifications.
fn maxima_agree()
    ensures { (Ring.LEAST ≡ ring_least) × (Ring.LENGTH ≡ ring_most) × (Ring.DEFAULT ≡ limit_default) × (Ring.ALLOWANCE ≡ allowance_most) }
{}
