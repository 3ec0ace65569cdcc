// How what calls answer is shown: a histogram of rings, and what the reader of a file tells.
use crate::Shown;
use averages::Averages;
use bonds::Reading;
use census::Histogram;
use network::{Answer, Refusal};
use std::fmt;
use std::num::saturating_f64_to_u64;

// The answer and the histogram, of which every number is 0 where the call is refused.
impl fmt::Display for Shown<'_, Result<Histogram, Refusal>> {
    fn fmt<W: fmt::Write>(&self, f: &mut fmt::Formatter<W>) -> fmt::Result {
        match self.0 {
            Ok(histogram) => write!(f, "{}{}", Shown(&Answer::accepted()), Shown(histogram)),
            Err(refusal) => write!(
                f,
                "{}{}",
                Shown(&Answer::from(*refusal)),
                Shown(&Histogram::none())
            ),
        }
    }
}

// The limit used, total, words, averages, and the counts above 0.
impl fmt::Display for Shown<'_, Histogram> {
    fn fmt<W: fmt::Write>(&self, f: &mut fmt::Formatter<W>) -> fmt::Result {
        let histogram = self.0;
        write!(
            f,
            " limit {} total {} words {}{}",
            histogram.limit,
            histogram.total,
            histogram.words,
            Shown(&histogram.averages)
        )?;
        for (length, rings) in histogram.counts.iter().enumerate() {
            if *rings > 0 {
                write!(f, " of length {length} {rings}")?;
            }
        }
        Ok(())
    }
}

// In thousandths.
impl fmt::Display for Shown<'_, Averages> {
    fn fmt<W: fmt::Write>(&self, f: &mut fmt::Formatter<W>) -> fmt::Result {
        let averages = self.0;
        write!(f, " per atom {}", thousandths(averages.per_atom))?;
        match averages.mean {
            Some(x) => write!(f, " mean {}", thousandths(x)),
            None => write!(f, " no mean"),
        }
    }
}

fn thousandths(x: f64) -> u64 {
    saturating_f64_to_u64(x * 1000.0)
}

// The answer, atoms, bonds, and the count field of a refused file.
impl fmt::Display for Shown<'_, Reading> {
    fn fmt<W: fmt::Write>(&self, f: &mut fmt::Formatter<W>) -> fmt::Result {
        let reading = self.0;
        write!(
            f,
            "{} {} {} {}",
            Shown(&reading.answer),
            reading.atoms,
            reading.bonds,
            ShownValue(reading.value)
        )
    }
}

// A count field, of those that the cases have.
#[derive(Drop)]
struct ShownValue(i32);

impl fmt::Display for ShownValue {
    fn fmt<W: fmt::Write>(&self, f: &mut fmt::Formatter<W>) -> fmt::Result {
        let value = self.0;
        if [0, -1, -32768, 251, 999, 1001].contains(&value) {
            write!(f, "{value}")
        } else {
            f.write_str("another")
        }
    }
}
