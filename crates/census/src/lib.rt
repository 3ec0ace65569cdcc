// What counting and listing answer, and the checks that come before the search.
#![tactic(auto)]

pub mod checks;

ghost use Rattle.std.specs.Prelude.{◌≡◌};
ghost use Rattle.census.specs.Told.{no_numbers};

use averages::Averages;
use ring::Ring;

// The ring histogram, which counting and listing answer.
#[derive(Drop)]
pub struct Histogram {
    // The limit used.
    pub limit: usize,
    // The number of rings of each length.
    pub counts: [u32; Ring::LENGTH + 1],
    // The number of rings.
    pub total: u32,
    // The words that their list takes.
    pub words: usize,
    pub averages: Averages,
}

impl Histogram {
    // What is told of a call that is refused: every number is 0.
    pub fn none() -> Histogram
        ensures { result ≡ no_numbers }
    {
        Histogram {
            limit: 0,
            counts: [0; Ring::LENGTH + 1],
            total: 0,
            words: 0,
            averages: averages::no_averages(),
        }
    }
}
