// What the listing programs print for a network file and for a molfile, as bytes in a lent buffer.
#![tactic(auto)]

ghost use Rattle.std.specs.Prelude.{◌≡◌, ◌*◌, take};
ghost use Rattle.std.specs.Fn.{FnOnceReturnsAtMut};
ghost use Rattle.network.specs.Maxima.{places};
ghost use Rattle.network.specs.Network.{IsNetwork};
ghost use Rattle.report.specs.Report.{file_bytes, molfile_bytes, list_words, text_bytes, blank_table, ListingText, FileText, MolfileText, ReadsNetworks, ReadingText, TextOfReading, Prints, Responds};

use bonds::Reading;
use network::Network;
use page::Page;
use ring::Ring;

// The bytes of a network file that are read: one more than the greatest file has, so that any longer one is refused.
pub const FILE: usize = bnw::HEAD + bnw::BOND * bnw::BONDS + 1;

// The bytes of a molfile that are read, at most: a longer one is judged by its first bytes.
pub const MOLFILE: usize = 1048576;

// The words of the list buffer.
pub const LIST: usize = 32768;

// Every text fits: a ring of k atoms takes k + 1 words, and its line at most 8 + 4k bytes, so at most 5 for each word;
// the other lines take at most 1,281.
pub const TEXT: usize = 5 * LIST + 1281;

// Writes what is printed for a network file, and answers its length. Where fewer than TEXT bytes are lent, it writes nothing and answers 0.
// Kept: a function of one line for each kind of file, and 0 where nothing is written, since C's `rings_report` and `rings_report_molfile` are so.
pub fn respond(file: &[u8], out: &mut [u8]) -> usize
    ensures { Responds (FileText file.now) out.old out.new result }
{
    respond_by(|table| bnw_reader::read(file, table), out)
}

// Writes what is printed for a molfile, in the same way.
pub fn respond_molfile(file: &[u8], out: &mut [u8]) -> usize
    ensures { Responds (MolfileText file.now) out.old out.new result }
{
    respond_by(|table| molfile_reader::read(file, table), out)
}

// The text of what `read` makes of a blank table.
fn respond_by<F: FnOnce(&mut [u16]) -> Reading>(read: F, out: &mut [u8]) -> usize
    requires callable { F.IsAlwaysCallable read }
    requires networks { ReadsNetworks (FnOnceReturnsAtMut F.FnOnce read blank_table) }
    ensures { Responds (TextOfReading (FnOnceReturnsAtMut F.FnOnce read blank_table)) out.old out.new result }
{
    if out.len() < TEXT {
        return 0;
    }
    let mut table = [0u16; Network::ATOMS * Network::PLACES];
    let reading = read(&mut table);
    let mut page = Page::new(out);
    print_reading(reading, &table, &mut page);
    page.written().unwrap_or(0)
}

// The text of a reading: the line of the refusal, or the text of the network whose rows stand first in the table.
fn print_reading(reading: Reading, table: &[u16], page: &mut Page)
    requires { reading.answer.code ≡ 0 → IsNetwork reading.atoms (take (places * reading.atoms) table.now) }
    ensures { Prints (ReadingText reading table.now) page.old page.new }
{
    let Reading {
        answer,
        atoms,
        bonds,
        ..
    } = reading;
    if answer.code != 0 {
        return text::refusal(answer, page);
    }
    let words = Network::PLACES * atoms;
    list(atoms, bonds, &table[..words], page)
}

// The text of a network.
fn list(n: usize, bonds: usize, table: &[u16], page: &mut Page)
    requires { IsNetwork n table.now }
    ensures { Prints (ListingText n bonds table.now) page.old page.new }
{
    let mut dist = [0u8; Network::ATOMS * Network::ATOMS];
    let mut words = [0u16; LIST];
    match search::list(n, table, 0, Ring::ALLOWANCE, &mut dist[..n * n], &mut words) {
        Ok(histogram) => {
            let listed = &words[..histogram.words];
            text::listing(n, bonds, listed, histogram.counts, histogram.total, page)
        }
        Err(refusal) => text::refusal(refusal.into(), page),
    }
}

// The constants, in contracts.
fn sizes_agree()
    ensures { (FILE ≡ file_bytes) × (MOLFILE ≡ molfile_bytes) × (LIST ≡ list_words) × (TEXT ≡ text_bytes) }
{}
