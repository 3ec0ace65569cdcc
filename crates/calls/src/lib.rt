// Each call of the library, made, and ensured of it all that is demanded of it, refused or accepted (`demands`); none requires anything.
// The programs' are in program; calls made one after the other are in `two_calls`.
// Kept: a function for each call, here and in program, though some have one shape, since each ensures a demand of its own (docs/CLAIMS.md).
#![tactic(auto)]

pub mod program;

ghost use Rattle.network.specs.Refusals.{told};
ghost use Rattle.bnw.specs.Writing.{told_bytes};
ghost use Rattle.candidate.specs.Told.{tested_told};
ghost use Rattle.census.specs.Told.{histogram_told};
ghost use Rattle.demands.specs.Calls.{ValidateMet, DistancesMet, CandidateMet, CountMet, ListMet, RenumberMet, ReadMet, ReadMolfileMet, WriteMet};

use bonds::Reading;
use candidate::Candidate;
use census::Histogram;
use network::Refusal;

// The first fault of a bond table, or that it is the table of a network.
pub fn validate(n: usize, table: &[u16]) -> Result<(), Refusal>
    ensures { ValidateMet n table.now (told result) }
{
    validator::validate(n, table)
}

// The distance buffer becomes the distance table.
pub fn distances(n: usize, table: &[u16], dist: &mut [u8]) -> Result<(), Refusal>
    ensures { DistancesMet n table.now dist.old dist.new (told result) }
{
    distance::distances(n, table, dist)
}

// Whether a candidate is a shortest-path ring: its one writing, or the first pair of places whose network distance is shorter.
pub fn test(n: usize, table: &[u16], ring: &[u16], dist: &mut [u8]) -> Result<Candidate, Refusal>
    ensures { CandidateMet n table.now ring.now dist.old dist.new (tested_told result) }
{
    candidate::test(n, table, ring, dist)
}

// The numbers of the shortest-path rings up to the limit.
pub fn count(
    n: usize,
    table: &[u16],
    limit: usize,
    allowance: usize,
    dist: &mut [u8],
) -> Result<Histogram, Refusal>
    ensures { CountMet n table.now limit allowance dist.old dist.new (histogram_told result) }
{
    search::count(n, table, limit, allowance, dist)
}

// These, and the rings themselves at the front of the list buffer.
pub fn list(
    n: usize,
    table: &[u16],
    limit: usize,
    allowance: usize,
    dist: &mut [u8],
    list: &mut [u16],
) -> Result<Histogram, Refusal>
    ensures { ListMet n table.now limit allowance dist.old dist.new list.old list.new (histogram_told result) }
{
    search::list(n, table, limit, allowance, dist, list)
}

// The new table becomes that of the network under the new names of its atoms.
pub fn renumber(n: usize, table: &[u16], names: &[u16], renamed: &mut [u16]) -> Result<(), Refusal>
    ensures { RenumberMet n table.now names.now renamed.old renamed.new (told result) }
{
    renumber::renumber(n, table, names, renamed)
}

// The rows of the file's network come to stand first in the table lent.
pub fn read(file: &[u8], table: &mut [u16]) -> Reading
    ensures { ReadMet file.now table.old table.new result }
{
    bnw_reader::read(file, table)
}

// The rows of the molfile's network come to stand first in the table lent.
pub fn read_molfile(file: &[u8], table: &mut [u16]) -> Reading
    ensures { ReadMolfileMet file.now table.old table.new result }
{
    molfile_reader::read(file, table)
}

// The network's file comes to stand first in the bytes lent.
pub fn write(n: usize, table: &[u16], file: &mut [u8]) -> Result<usize, Refusal>
    ensures { WriteMet n table.now file.old file.new (told_bytes result) }
{
    bnw_writer::write(n, table, file)
}
