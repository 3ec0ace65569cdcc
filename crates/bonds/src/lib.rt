// Bonds, the table that they define, and what comes of reading a file of them, whatever its format.
//
// What a reading means is in specs/, the laws that readers and writers stand on are in proofs/.
#![tactic(auto)]

ghost use Rattle.std.specs.Prelude.{◌≡◌, pos};
ghost use Rattle.network.specs.Refusals.{answer_of};
ghost use Rattle.network.specs.Verdict.{accepted};

use network::{Answer, Refusal};

// Two bonded atoms. Bonds are ordered by the first atom and then the second.
#[derive(Clone, Copy, PartialEq, Eq, PartialOrd, Ord)]
pub struct Bond {
    pub first: u16,
    pub second: u16,
}

// What comes of reading a file: the answer, the counts of atoms and of bonds, and the count that a refusal names.
// C's struct `rings_reading` has these fields (include/rings.h).
#[repr(C)]
#[derive(Drop)]
pub struct Reading {
    pub answer: Answer,
    pub atoms: usize,
    pub bonds: usize,
    pub value: i32,
}

impl Reading {
    // What comes of a file of so many atoms and bonds.
    pub fn accepted(atoms: usize, bonds: usize) -> Reading
        ensures { result ≡ record { answer = accepted; atoms = atoms; bonds = bonds; value = pos 0 } }
    {
        Reading {
            answer: Answer::accepted(),
            atoms,
            bonds,
            value: 0,
        }
    }

    // What comes of a file that is refused; the value is the count that the refusal names, or 0.
    pub fn refused(refusal: Refusal, value: i32) -> Reading
        ensures { result ≡ record { answer = answer_of refusal; atoms = 0; bonds = 0; value = value } }
    {
        Reading {
            answer: refusal.into(),
            atoms: 0,
            bonds: 0,
            value,
        }
    }
}
