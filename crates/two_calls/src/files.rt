// Demand 2, of files: a file that is read and written again, a network that is written and read again, and a molfile that is read and then
// written and read as a network file.
//
// Where the first call is refused, the second is given nothing: no rows, which are refused with 1, or no bytes, with 19.
ghost use Rattle.demands.specs.Files.{ReadThenWrite, WriteThenRead, MolfileThenFile};

use bnw::FileWritten;
use demands::{ReadAndWritten, ReadAndWrittenAndRead};
use network::Network;

// Reads a file into a table, and writes the rows read into the bytes lent.
pub fn read_then_write(file: &[u8], table: &mut [u16], lent: &mut [u8]) -> ReadAndWritten
    ensures { ReadThenWrite file.now table.old table.new lent.old lent.new result }
{
    let reading = bnw_reader::read(file, table);
    let words = Network::PLACES * reading.atoms;
    let writing: FileWritten = bnw_writer::write(reading.atoms, &table[..words], lent).into();
    ReadAndWritten { reading, writing }
}

// Writes a network into a file, and reads the bytes written into the table lent.
pub fn write_then_read(n: usize, rows: &[u16], file: &mut [u8], table: &mut [u16]) -> ReadAndWritten
    ensures { WriteThenRead n rows.now file.old file.new table.old table.new result }
{
    let writing: FileWritten = bnw_writer::write(n, rows, file).into();
    let reading = bnw_reader::read(&file[..writing.bytes], table);
    ReadAndWritten { reading, writing }
}

// Reads a molfile into a table, writes the rows read into `out` as a network file, and reads the bytes written into another table.
pub fn molfile_then_file(
    file: &[u8],
    table: &mut [u16],
    out: &mut [u8],
    again: &mut [u16],
) -> ReadAndWrittenAndRead
    ensures { MolfileThenFile file.now table.old table.new out.old out.new again.old again.new result }
{
    let reading = molfile_reader::read(file, table);
    let words = Network::PLACES * reading.atoms;
    let writing: FileWritten = bnw_writer::write(reading.atoms, &table[..words], out).into();
    let last = bnw_reader::read(&out[..writing.bytes], again);
    ReadAndWrittenAndRead {
        reading,
        writing,
        again: last,
    }
}
