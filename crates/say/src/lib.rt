// Printing, for the programs that run cases: how an answer, a table's words and rows of bytes are shown. What calls answer is in `results`.
#![tactic(auto)]

mod results;

use network::{Answer, Network};
use std::{fmt, io};

/// A value as the programs show it.
#[derive(Drop)]
pub struct Shown<'a, T>(pub &'a T);

// Its code, row and place.
impl fmt::Display for Shown<'_, Answer> {
    fn fmt<W: fmt::Write>(&self, f: &mut fmt::Formatter<W>) -> fmt::Result {
        let answer = self.0;
        write!(f, "{} {} {}", answer.code, answer.row, answer.place)
    }
}

/// The words of a table or a list, a stroke for a free place.
#[derive(Drop)]
pub struct ShownWords<'a>(pub &'a [u16]);

impl fmt::Display for ShownWords<'_> {
    fn fmt<W: fmt::Write>(&self, f: &mut fmt::Formatter<W>) -> fmt::Result {
        for word in self.0 {
            if *word == Network::FREE {
                f.write_str(" -")?;
            } else {
                write!(f, " {word}")?;
            }
        }
        Ok(())
    }
}

/// Bytes, as numbers.
#[derive(Drop)]
pub struct ShownBytes<'a>(pub &'a [u8]);

impl fmt::Display for ShownBytes<'_> {
    fn fmt<W: fmt::Write>(&self, f: &mut fmt::Formatter<W>) -> fmt::Result {
        for byte in self.0 {
            write!(f, " {byte}")?;
        }
        Ok(())
    }
}

// Bytes, `width` to a line; a line that lacks some does not end.
pub fn rows(rt: &impl Print, bytes: &[u8], width: usize) -> io::Result<()> {
    let whole = width.max(1);
    for row in bytes.chunks(whole) {
        print!(rt; "{}", ShownBytes(row))?;
        if row.len() == whole {
            println!(rt)?;
        }
    }
    Ok(())
}
