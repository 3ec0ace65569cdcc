// The network file: its numbers, and what comes of writing one; what comes of reading one is a struct of `bonds`.
//
// A file is the mark "BNW", the version, the counts of atoms and of bonds, then the bonds in ascending order. What it means is in
// specs/, that it returns in proofs/; the crates bnw_reader and bnw_writer have the rest of the code.
#![tactic(auto)]

ghost use Rattle.std.specs.Prelude.{◌≡◌};
ghost use Rattle.bnw.specs.Reading.{of_bytes, signed};
ghost use Rattle.bnw.specs.Writing.{told_bytes};

use network::{Answer, Network, Refusal};

// The bytes before the bonds, and of a bond.
pub const HEAD: usize = 9;

pub const BOND: usize = 4;

// The version that is read and written.
pub const VERSION: usize = 1;

// Where the version, the count of atoms and the count of bonds stand.
pub const VERSION_AT: usize = 3;

pub const ATOMS_AT: usize = 5;

pub const BONDS_AT: usize = 7;

// The most bonds of a network: each has two atoms, and an atom has at most a row's places.
pub const BONDS: usize = Network::ATOMS * Network::PLACES / 2;

// What comes of writing, as C has it (include/rings.h): the answer and the bytes written.
// Kept: C's struct `rings_written`; the writer answers a Result, which is turned into it for C.
#[repr(C)]
#[derive(Drop)]
pub struct FileWritten {
    pub answer: Answer,
    pub bytes: usize,
}

impl From<Result<usize, Refusal>> for FileWritten {
    ghost from_gives = { λ outcome written. written ≡ told_bytes outcome };

    fn from(outcome: Result<usize, Refusal>) -> FileWritten {
        match outcome {
            Ok(bytes) => FileWritten {
                answer: Answer::accepted(),
                bytes,
            },
            Err(refusal) => FileWritten {
                answer: refusal.into(),
                bytes: 0,
            },
        }
    }
}

// The number of two bytes, little-endian.
pub fn of_bytes(low: u8, high: u8) -> u16
    ensures { result ≡ of_bytes low high }
{
    u16::from_le_bytes([low, high])
}

// A 16-bit number in two's complement.
pub fn signed(v: u16) -> i32
    ensures { result ≡ signed v }
{
    i32::from(v.cast_signed())
}
