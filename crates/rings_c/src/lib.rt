// The library for C and for every language that calls C, as include/rings.h declares it.
//
// Each function passes on one call and has that call's contract; a slice crosses as pointer and length, an
// answer that holds an enum as a flat struct (`flat`).
// Kept: names, parameters and answers are C's (include/rings.h), so a number of bytes is answered as it is, a refusal in an answer's fields, and
// calls of one shape are functions of their own.
#![tactic(auto)]

ghost use Rattle.std.specs.Prelude.{◌≡◌};
ghost use Rattle.network.specs.Verdict.{verdict};
ghost use Rattle.candidate.specs.CandidateOutcome.{CandidateOutcome};
ghost use Rattle.census.specs.Census.{CountOutcome, ListOutcome};
ghost use Rattle.bnw.specs.Reading.{ReadOutcome};
ghost use Rattle.bnw.specs.Writing.{WriteOutcome};
ghost use Rattle.molfile.specs.Judging.{MolfileOutcome};
ghost use Rattle.report.specs.Report.{FileText, MolfileText, Responds};
ghost use Rattle.distance.specs.Outcome.{DistancesOutcome};
ghost use Rattle.renumber.specs.Outcome.{RenumberOutcome};
ghost use Rattle.flat.specs.Flat.{flat_census, flat_candidate, PassedOn};

use bnw::FileWritten;
use bonds::Reading;
use flat::{FlatCandidate, FlatCensus};
use network::Answer;

// The first fault of a bond table.
#[unsafe(no_mangle)]
pub extern "C" fn rings_validate(n: usize, table: &[u16]) -> Answer
    ensures { result ≡ verdict n table.now }
{
    validator::validate(n, table).into()
}

// The distances between all atoms.
#[unsafe(no_mangle)]
pub extern "C" fn rings_distances(n: usize, table: &[u16], dist: &mut [u8]) -> Answer
    ensures { DistancesOutcome n table.now dist.old dist.new result }
{
    distance::distances(n, table, dist).into()
}

// The test of one candidate ring.
#[unsafe(no_mangle)]
pub extern "C" fn rings_test(
    n: usize,
    table: &[u16],
    ring: &[u16],
    dist: &mut [u8],
) -> FlatCandidate
    ensures { PassedOn flat_candidate (CandidateOutcome n table.now ring.now dist.old dist.new) result }
{
    candidate::test(n, table, ring, dist).into()
}

// The number of shortest-path rings of each length.
#[unsafe(no_mangle)]
pub extern "C" fn rings_count(
    n: usize,
    table: &[u16],
    limit: usize,
    allowance: usize,
    dist: &mut [u8],
) -> FlatCensus
    ensures { PassedOn flat_census (CountOutcome n table.now limit allowance dist.old dist.new) result }
{
    search::count(n, table, limit, allowance, dist).into()
}

// The same, and the rings themselves.
#[unsafe(no_mangle)]
pub extern "C" fn rings_list(
    n: usize,
    table: &[u16],
    limit: usize,
    allowance: usize,
    dist: &mut [u8],
    list: &mut [u16],
) -> FlatCensus
    ensures { PassedOn flat_census (ListOutcome n table.now limit allowance dist.old dist.new list.old list.new) result }
{
    search::list(n, table, limit, allowance, dist, list).into()
}

// The table under new numbers of the atoms.
#[unsafe(no_mangle)]
pub extern "C" fn rings_renumber(
    n: usize,
    table: &[u16],
    names: &[u16],
    renamed: &mut [u16],
) -> Answer
    ensures { RenumberOutcome n table.now names.now renamed.old renamed.new result }
{
    renumber::renumber(n, table, names, renamed).into()
}

// The network of a file.
#[unsafe(no_mangle)]
pub extern "C" fn rings_read(file: &[u8], table: &mut [u16]) -> Reading
    ensures { ReadOutcome file.now table.old table.new result }
{
    bnw_reader::read(file, table)
}

// The network of a molfile.
#[unsafe(no_mangle)]
pub extern "C" fn rings_read_molfile(file: &[u8], table: &mut [u16]) -> Reading
    ensures { MolfileOutcome file.now table.old table.new result }
{
    molfile_reader::read(file, table)
}

// The file of a network.
#[unsafe(no_mangle)]
pub extern "C" fn rings_write(n: usize, table: &[u16], file: &mut [u8]) -> FileWritten
    ensures { WriteOutcome n table.now file.old file.new result }
{
    bnw_writer::write(n, table, file).into()
}

// What the listing program prints for a network file.
#[unsafe(no_mangle)]
pub extern "C" fn rings_report(file: &[u8], out: &mut [u8]) -> usize
    ensures { Responds (FileText file.now) out.old out.new result }
{
    report::respond(file, out)
}

// What the listing program for molfiles prints.
#[unsafe(no_mangle)]
pub extern "C" fn rings_report_molfile(file: &[u8], out: &mut [u8]) -> usize
    ensures { Responds (MolfileText file.now) out.old out.new result }
{
    report::respond_molfile(file, out)
}
