// Runs the border cases of reading a molfile, each from both sides: what is tried, what is answered, and the table after it.
//
// The cases stand in stdin, a ~ after each: its name, the words of the table lent in four digits, and the file, with a | between.
#![tactic(auto)]

ghost use Rattle.std.specs.Prelude.{◌≤◌};

use network::Network;
use say::{Shown, ShownWords};
use std::io;
use std::io::Write;

// The words of the greatest table.
const WORDS: usize = Network::ATOMS * Network::PLACES;

// The words shown: three rows and the word after them.
const SHOWN: usize = 3 * Network::PLACES + 1;

fn main(rt: HostRuntime) -> io::Result<()> {
    let mut bytes = [0u8; 16384];
    let (got, _ended) = input::read_full(&mut rt.stdin(), &mut bytes);
    for case in bytes[..got].split(|byte| *byte == b'~') {
        part(&rt, case)?;
    }
    Ok(())
}

// The three parts of a case: any four bytes tell the words, and the byte after them may be any.
fn part(rt: &impl Print, case: &[u8]) -> io::Result<()> {
    let bar = case
        .iter()
        .position(|byte| *byte == b'|')
        .unwrap_or(case.len());
    let (name, rest) = case.split_at(bar);
    if let Some(([_, a, b, c, d, _], file)) = rest.split_first_chunk::<6>() {
        let words = number([*a, *b, *c, *d]);
        if words <= WORDS {
            io::writer(rt).write_all(name)?;
            print!(rt; ", words {words}, ")?;
            read(rt, file, words)?;
        }
    }
    Ok(())
}

fn number(digits: [u8; 4]) -> usize {
    let [a, b, c, d] = digits.map(|digit| usize::from(digit % b'0'));
    1000 * a + 100 * b + 10 * c + d
}

// Reads a file into the first words of the greatest table.
fn read(rt: &impl Print, file: &[u8], words: usize) -> io::Result<()>
    requires { words ≤ WORDS }
{
    let mut table = [9u16; WORDS];
    let reading = molfile_reader::read(file, &mut table[..words]);
    let (shown, _) = table.split_at(SHOWN);
    println!(rt; "read: {}\nits table{}", Shown(&reading), ShownWords(shown))
}
