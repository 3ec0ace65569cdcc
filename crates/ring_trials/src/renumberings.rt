// Renumbering: Fig. 1 under three renumberings, listed both ways, and refusals 6 and 18 from both sides.
ghost use Rattle.std.specs.Prelude.{◌≤◌};

use crate::searches;
use network::Answer;
use say::{Shown, ShownWords};
use std::io;

pub fn run(rt: &impl Print, figure: &[u16; 56]) -> io::Result<()> {
    orders(rt, figure)?;
    sizes(rt, figure)?;
    faults(rt, figure)
}

// As it is, backwards, and moved on by three, with its rings.
fn orders(rt: &impl Print, figure: &[u16; 56]) -> io::Result<()> {
    for names in [
        [0, 1, 2, 3, 4, 5, 6],
        [6, 5, 4, 3, 2, 1, 0],
        [3, 4, 5, 6, 0, 1, 2],
    ] {
        let renamed: [u16; 56] = rename(rt, figure, &names, 56)?;
        searches::list(rt, &renamed, 4, 21)?;
    }
    Ok(())
}

// 6: names, and words of the new table, too few and too many.
fn sizes(rt: &impl Print, figure: &[u16; 56]) -> io::Result<()> {
    let names = [0, 1, 2, 3, 4, 5, 6, 6];
    for (count, words) in [(6, 56), (8, 56), (7, 55), (7, 57)] {
        rename::<57>(rt, figure, &names[..count], words)?;
    }
    Ok(())
}

// 18: a name that is no atom, before one that stands twice; and a name twice, before one that is no atom.
fn faults(rt: &impl Print, figure: &[u16; 56]) -> io::Result<()> {
    for names in [[0, 1, 2, 3, 7, 5, 5], [0, 1, 2, 3, 4, 3, 7]] {
        rename::<57>(rt, figure, &names, 56)?;
    }
    Ok(())
}

// Fig. 1 under these names, into so many words: the answer, and the new table with the words after it.
fn rename<const ROOM: usize>(
    rt: &impl Print,
    figure: &[u16; 56],
    names: &[u16],
    words: usize,
) -> io::Result<[u16; ROOM]>
    requires { words ≤ ROOM }
{
    let mut renamed = [9; ROOM];
    let answer: Answer = renumber::renumber(7, figure, names, &mut renamed[..words]).into();
    println!(rt;
        "renumber{}, words {words}: {}",
        ShownWords(names),
        Shown(&answer)
    )?;
    println!(rt; "its table{}", ShownWords(&renamed))?;
    Ok(renamed)
}
