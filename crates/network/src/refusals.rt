// Why a call is refused, and the answer that C has of a refusal.
ghost use Rattle.std.specs.Prelude.{◌≡◌};
ghost use Rattle.network.specs.Refusals.{number_of, refused, answer_of, told};

use crate::Answer;

/// The refusals, by their numbers.
#[derive(Clone, Copy, Debug, PartialEq, Eq)]
pub enum Reason {
    AtomCount = 1,
    Limit = 2,
    Allowance = 3,
    TableLength = 4,
    DistanceLength = 5,
    RenumberingLength = 6,
    NoAtom = 7,
    AfterFree = 8,
    OwnNeighbour = 9,
    OutOfOrder = 10,
    Unanswered = 11,
    TooManyRings = 12,
    ListLength = 13,
    CandidateLength = 14,
    CandidateNoAtom = 15,
    CandidateTwice = 16,
    CandidateApart = 17,
    Name = 18,
    FileShort = 19,
    Mark = 20,
    Version = 21,
    FileAtoms = 22,
    FileBonds = 23,
    FileLength = 24,
    TableShort = 25,
    FileBond = 26,
    NinthBond = 27,
    FileRoom = 28,
    LineMissing = 29,
    NoVersion = 30,
    NumberColumn = 31,
    BondLine = 32,
}

impl Reason {
    pub fn number(self) -> u8
        ensures { result ≡ number_of self }
    {
        self as u8
    }

    /// The refusal that names this place.
    pub fn at(self, place: usize) -> Refusal
        ensures { result ≡ refused self 0 place }
    {
        Refusal {
            reason: self,
            row: 0,
            place,
        }
    }
}

/// A refusal, with the row and place that it names; both are 0 where it names none.
#[derive(Clone, Copy, Debug, PartialEq, Eq)]
pub struct Refusal {
    pub reason: Reason,
    pub row: usize,
    pub place: usize,
}

impl From<Reason> for Refusal {
    ghost from_gives = { λ reason refusal. refusal ≡ refused reason 0 0 };

    fn from(reason: Reason) -> Refusal {
        reason.at(0)
    }
}

impl From<Refusal> for Answer {
    ghost from_gives = { λ refusal answer. answer ≡ answer_of refusal };

    fn from(refusal: Refusal) -> Answer {
        Answer {
            code: refusal.reason.number(),
            row: refusal.row,
            place: refusal.place,
        }
    }
}

impl From<Result<(), Refusal>> for Answer {
    ghost from_gives = { λ outcome answer. answer ≡ told outcome };

    fn from(outcome: Result<(), Refusal>) -> Answer {
        match outcome {
            Ok(()) => Answer::accepted(),
            Err(refusal) => refusal.into(),
        }
    }
}
