// Writing a network file: Fig. 1 with refusal 28 from both sides, and the greatest file, each read again.
ghost use Rattle.std.specs.Prelude.{◌<◌, ◌≤◌};

use crate::WORDS;
use bnw::FileWritten;
use bonds::Reading;
use network::Network;
use say::{Shown, ShownBytes};
use std::{array, io};

// The bytes of the greatest file.
const GREATEST: usize = bnw::HEAD + bnw::BOND * bnw::BONDS;

// The atoms of a group of the greatest table: an atom's neighbours, the atom and its partner.
const GROUP: usize = Network::PLACES + 2;

pub fn run(rt: &impl Print, figure: &[u16]) -> io::Result<()> {
    there(rt, figure)?;
    greatest(rt)
}

// Fig. 1 written into 44, 45 and 46 bytes, and its file read and written again.
fn there(rt: &impl Print, figure: &[u16]) -> io::Result<()> {
    for room in 44..=46 {
        write(rt, figure, room)?;
    }
    let file =
        b"BNW\x01\x00\x07\x00\x09\x00\x00\x00\x01\x00\x00\x00\x04\x00\x01\x00\x02\x00\x01\x00\x03\x00\x02\x00\x05\x00\x03\x00\x05\x00\x03\x00\x06\x00\x04\x00\x05\x00\x05\x00\x06\x00";
    let mut read = [0u16; 56];
    again(rt, file, &mut read, figure)?;
    write(rt, &read, 45)
}

// Writes seven atoms into so many bytes, and shows them and those after them.
fn write(rt: &impl Print, table: &[u16], room: usize) -> io::Result<()>
    requires { room ≤ 46 }
{
    let mut file = [9u8; 46];
    let written = FileWritten::from(bnw_writer::write(7, table, &mut file[..room]));
    println!(rt;
        "write, bytes {room}: {} {}",
        Shown(&written.answer),
        written.bytes
    )?;
    println!(rt; "{}", ShownBytes(&file))
}

// Reads a table's file, and tells how many words at the same places are the same.
fn again(rt: &impl Print, file: &[u8], read: &mut [u16], table: &[u16]) -> io::Result<()> {
    let reading = bnw_reader::read(file, read);
    println!(rt; "read: {}", Shown(&reading))?;
    let alike = table
        .iter()
        .zip(read.iter())
        .filter(|(x, y)| x == y)
        .count();
    println!(rt; "the same words {alike} of {}", table.len())
}

// 250 atoms with eight bonds each: 1000 bonds in 4,009 bytes.
fn greatest(rt: &impl Print) -> io::Result<()> {
    let table: [u16; WORDS] = array::from_fn(neighbour);
    let mut file = [0u8; GREATEST + 1];
    let written = FileWritten::from(bnw_writer::write(Network::ATOMS, &table, &mut file));
    println!(rt;
        "write, the most atoms and bonds: {} {}",
        Shown(&written.answer),
        written.bytes
    )?;
    again(rt, file.split_at(GREATEST).0, &mut [0u16; WORDS], &table)
}

// The word i of a table of groups of atoms, in which each is bonded to all but itself and its partner, the other of its pair: a row
// passes over its atom's pair.
fn neighbour(i: usize) -> u16
    requires { i < WORDS }
{
    let x = i / Network::PLACES;
    let p = i % Network::PLACES;
    let first = x - x % GROUP;
    let pair = x % GROUP / 2 * 2;
    let y = if p < pair { first + p } else { first + p + 2 };
    y as u16
}
