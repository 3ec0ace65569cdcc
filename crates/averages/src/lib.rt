// The averages of a census: each one division of whole numbers that are cast without loss.
#![tactic(auto)]

ghost use Rattle.std.specs.Prelude.{◌≡◌};
ghost use Rattle.averages.specs.Averages.{quotient, mean_of, averages_of, no_averages, AveragesTold};

#[derive(Drop)]
pub struct Averages {
    // Rings per atom.
    pub per_atom: f64,
    // The mean length of the rings, where there are any.
    pub mean: Option<f64>,
}

// Rings per atom, and the mean length of `total` rings whose lengths add up to `lengths`. At n = 0, which no network has, rings per
// atom is the quotient by 0: an infinity, or not a number where there are no rings either.
pub fn averages_of(n: u32, total: u32, lengths: u32) -> Averages
    ensures { AveragesTold (averages_of n total lengths) result }
{
    let per_atom = quotient(total, n);
    let mean = mean_of(total, lengths);
    Averages { per_atom, mean }
}

// What a refused call gives.
pub fn no_averages() -> Averages
    ensures { AveragesTold no_averages result }
{
    Averages {
        per_atom: 0.0,
        mean: None,
    }
}

// The mean length of the rings, where there are any.
fn mean_of(total: u32, lengths: u32) -> Option<f64>
    ensures { result ≡ mean_of total lengths }
{
    if total == 0 {
        None
    } else {
        Some(quotient(lengths, total))
    }
}

// One over the other: both are cast without loss and divided once.
fn quotient(a: u32, b: u32) -> f64
    ensures { result ≡ quotient a b }
{
    a as f64 / b as f64
}
