// Reading a network file: refusals 19 to 27, from both sides of their borders.
ghost use Rattle.std.specs.Prelude.{◌≤◌};

use crate::WORDS;
use bnw::{BOND, BONDS, BONDS_AT, HEAD};
use network::Network;
use say::{Shown, ShownBytes, ShownWords};
use std::io;

pub fn run(rt: &impl Print) -> io::Result<()> {
    heads(rt)?;
    atoms(rt)?;
    bonds(rt)?;
    lengths(rt)?;
    orders(rt)?;
    ninths(rt)
}

// 19 to 21: a short file, marks and versions.
fn heads(rt: &impl Print) -> io::Result<()> {
    read(rt, b"BNW\x01\x00\x01\x00\x00", Network::PLACES)?;
    for (letter, version) in [(b'W', 1), (b'X', 1), (b'W', 0), (b'W', 2), (b'W', 257)] {
        head(rt, letter, version, 1, 0, Network::PLACES)?;
    }
    Ok(())
}

// 22: the number of atoms, with its sign.
fn atoms(rt: &impl Print) -> io::Result<()> {
    let most = Network::ATOMS as u16;
    for atoms in [0, most, most + 1, 0xffff, 0x8000] {
        head(rt, b'W', 1, atoms, 0, WORDS)?;
    }
    Ok(())
}

// 23: the number of bonds, with its sign. The most bonds are a right number, and missing.
fn bonds(rt: &impl Print) -> io::Result<()> {
    let most = BONDS as u16;
    for bonds in [0xffff, 0x8000, most, most + 1] {
        head(rt, b'W', 1, 2, bonds, WORDS)?;
    }
    Ok(())
}

// A file that ends after its counts, by the mark's last letter, its version and its counts.
// Kept: that the room is at most the greatest table's stands in three contracts, from the case to its call; a type of rooms would be no plainer.
fn head(
    rt: &impl Print,
    letter: u8,
    version: u16,
    atoms: u16,
    bonds: u16,
    room: usize,
) -> io::Result<()>
    requires { room ≤ WORDS }
{
    let [v, w] = version.to_le_bytes();
    let [a, b] = atoms.to_le_bytes();
    let [c, d] = bonds.to_le_bytes();
    read(rt, &[b'B', b'N', letter, v, w, a, b, c, d], room)
}

// 24 and 25: the lengths of the file and of the table.
fn lengths(rt: &impl Print) -> io::Result<()> {
    let file = b"BNW\x01\x00\x02\x00\x01\x00\x00\x00\x01\x00\x00";
    for (bytes, words) in [(12, 16), (13, 16), (14, 16), (13, 15), (13, 17)] {
        read(rt, &file[..bytes], words)?;
    }
    Ok(())
}

// 26: the second of two bonds of three atoms.
fn orders(rt: &impl Print) -> io::Result<()> {
    for [a, b, c, d] in [
        [0, 1, 0, 2],
        [0, 1, 0, 3],
        [0, 1, 1, 1],
        [0, 1, 2, 1],
        [0, 1, 0, 1],
        [0, 2, 0, 1],
        [1, 2, 0, 2],
    ] {
        read(
            rt,
            &[b'B', b'N', b'W', 1, 0, 3, 0, 2, 0, a, 0, b, 0, c, 0, d, 0],
            3 * Network::PLACES,
        )?;
    }
    Ok(())
}

// 27: eight and nine bonds on atom 0, the first of each, and on atom 10, the second of each.
fn ninths(rt: &impl Print) -> io::Result<()> {
    ninth(
        rt,
        *b"BNW\x01\x00\x0a\x00\x09\x00\x00\x00\x01\x00\x00\x00\x02\x00\x00\x00\x03\x00\x00\x00\x04\x00\x00\x00\x05\x00\x00\x00\x06\x00\x00\x00\x07\x00\x00\x00\x08\x00\x00\x00\x09\x00",
        80,
    )?;
    ninth(
        rt,
        *b"BNW\x01\x00\x0b\x00\x09\x00\x00\x00\x0a\x00\x01\x00\x0a\x00\x02\x00\x0a\x00\x03\x00\x0a\x00\x04\x00\x0a\x00\x05\x00\x0a\x00\x06\x00\x0a\x00\x07\x00\x0a\x00\x08\x00\x0a\x00",
        88,
    )
}

// The first eight bonds of a file of nine, and all.
fn ninth(rt: &impl Print, mut file: [u8; HEAD + 9 * BOND], room: usize) -> io::Result<()>
    requires { room ≤ WORDS }
{
    for bonds in [8, 9] {
        file[BONDS_AT] = bonds;
        read(rt, &file[..HEAD + usize::from(bonds) * BOND], room)?;
    }
    Ok(())
}

// Reads a file into a table, the first `room` words of the greatest, and shows 17 of these.
fn read(rt: &impl Print, file: &[u8], room: usize) -> io::Result<()>
    requires { room ≤ WORDS }
{
    let mut table = [9u16; WORDS];
    println!(rt; "words {room}, file{}", ShownBytes(file))?;
    let reading = bnw_reader::read(file, &mut table[..room]);
    let (shown, _) = table.split_at(17);
    println!(rt; "read: {}\nits table{}", Shown(&reading), ShownWords(shown))
}
