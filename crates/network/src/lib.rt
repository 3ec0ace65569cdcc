// The network type with its maxima, the answer that every call gives, and the check of a table's sizes. What a bond table is, and which
// of its faults comes first, is in specs/; the crate validator has the code that looks for it.
//
// A bond table has a row of 8 places for each atom; a place holds a neighbour or is free.
#![tactic(auto)]

mod refusals;

ghost use Rattle.std.specs.Prelude.{◌≡◌, ◌+◌, ◌*◌, ◌≤◌, length};
ghost use Rattle.network.specs.Maxima.{atoms_most, places, free};
ghost use Rattle.network.specs.Refusals.{told, network_of};
ghost use Rattle.network.specs.Verdict.{accepted, sizes, stands, in_row};

pub use refusals::{Reason, Refusal};

// A network of so many atoms.
#[derive(Drop)]
pub struct Network {
    pub atoms: usize,
}

impl Network {
    // The most atoms of a network.
    pub const ATOMS: usize = 250;

    // The places in an atom's row, and so the most neighbours of an atom.
    pub const PLACES: usize = 8;

    // The word of a free place.
    // Kept: a number for none, since the tables that C lends have it.
    pub const FREE: u16 = 65535;

    /// A network of n atoms, where there is one.
    pub fn of(n: usize) -> Option<Network>
        ensures { result ≡ network_of n }
    {
        if (1..=Network::ATOMS).contains(&n) {
            Some(Network { atoms: n })
        } else {
            None
        }
    }
}

// The number of a refusal, 0 where a call is accepted, and the row and place that it names.
// Kept: C's struct `rings_answer` has these fields (include/rings.h); calls answer a Result, which is turned into it for C.
#[repr(C)]
#[derive(Drop)]
pub struct Answer {
    pub code: u8,
    pub row: usize,
    pub place: usize,
}

impl Answer {
    pub fn accepted() -> Answer
        ensures { result ≡ accepted }
    {
        Answer {
            code: 0,
            row: 0,
            place: 0,
        }
    }
}

// The number of atoms and the length of a bond table, which every call checks before it reads a word: refusals 1 and 4.
pub fn sizes(n: usize, table: &[u16]) -> Result<(), Refusal>
    ensures { told result ≡ sizes n table.now (λ a. a) accepted }
{
    Network::of(n).ok_or(Reason::AtomCount)?;
    if table.len() != Network::PLACES * n {
        return Err(Reason::TableLength.into());
    }
    Ok(())
}

// Whether x stands in row y of a table that has such a row.
pub fn stands_in(table: &[u16], x: usize, y: usize) -> bool
    ensures { result ≡ in_row table.now x y }
{
    if table.len() / Network::PLACES <= y {
        return false;
    }
    row_has(table, x, y)
}

// Whether x stands in row y.
fn row_has(table: &[u16], x: usize, y: usize) -> bool
    requires { y * places + places ≤ length table.now }
    ensures { result ≡ stands table.now x y places 0 }
{
    for p in 0..Network::PLACES {
        if table[y * Network::PLACES + p] as usize == x {
            return true;
        }
    }
    false
}

// The constants of the type are the numbers of the specifications.
fn maxima_agree()
    ensures { (Network.ATOMS ≡ atoms_most) × (Network.PLACES ≡ places) × (Network.FREE ≡ free) }
{}
