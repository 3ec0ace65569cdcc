// The answers of the calls as C has them.
#![tactic(auto)]

ghost use Rattle.std.specs.Prelude.{◌≡◌};
ghost use Rattle.candidate.specs.Told.{tested_told};
ghost use Rattle.census.specs.Told.{histogram_told};
ghost use Rattle.flat.specs.Flat.{flat_census, flat_candidate};

use candidate::Candidate;
use census::Histogram;
use network::{Answer, Refusal};
use ring::Ring;

// What counting and listing answer.
// Kept: a flag beside its value, here and below, since C has no Option and no enum with values.
#[repr(C)]
#[derive(Drop)]
pub struct FlatCensus {
    pub answer: Answer,
    // The limit used.
    pub limit: usize,
    // The number of rings of each length.
    pub counts: [u32; Ring::LENGTH + 1],
    // The number of rings.
    pub total: u32,
    // The words that their list takes.
    pub words: usize,
    // Rings per atom.
    pub per_atom: f64,
    // Whether there are rings, and so a mean length.
    pub has_mean: bool,
    // The mean length of the rings, or +0.0.
    pub mean: f64,
}

// What the test of a candidate answers.
#[repr(C)]
#[derive(Drop)]
pub struct FlatCandidate {
    pub answer: Answer,
    // Whether it is a shortest-path ring.
    pub yes: bool,
    // Where it is not, the first pair of its places whose network distance is shorter.
    pub first: usize,
    pub second: usize,
    // Where it is, its one writing; the other words are 0.
    pub writing: [u16; Ring::LENGTH],
}

// What counting and listing answer: the mean with a flag.
impl From<Result<Histogram, Refusal>> for FlatCensus {
    ghost from_gives = { λ outcome flat. flat ≡ flat_census (histogram_told outcome) };

    fn from(outcome: Result<Histogram, Refusal>) -> FlatCensus {
        let (answer, histogram) = match outcome {
            Ok(histogram) => (Answer::accepted(), histogram),
            Err(refusal) => (refusal.into(), Histogram::none()),
        };
        let counts = histogram.counts;
        let mean = histogram.averages.mean;
        FlatCensus {
            answer,
            limit: histogram.limit,
            counts,
            total: histogram.total,
            words: histogram.words,
            per_atom: histogram.averages.per_atom,
            has_mean: mean.is_some(),
            mean: mean.unwrap_or(0.0),
        }
    }
}

// What the test of a candidate answers: yes or no with the pair of places.
impl From<Result<Candidate, Refusal>> for FlatCandidate {
    ghost from_gives = { λ outcome flat. flat ≡ flat_candidate (tested_told outcome) };

    fn from(outcome: Result<Candidate, Refusal>) -> FlatCandidate {
        let none = [0; Ring::LENGTH];
        let (answer, yes, first, second, writing) = match outcome {
            Ok(Candidate::Ring(writing)) => (Answer::accepted(), true, 0, 0, writing),
            Ok(Candidate::CutShort(first, second)) => (
                Answer::accepted(),
                false,
                first,
                second,
                none,
            ),
            Err(refusal) => (refusal.into(), false, 0, 0, none),
        };
        FlatCandidate {
            answer,
            yes,
            first,
            second,
            writing,
        }
    }
}
