// Header and counts line: refusals 29, 30, 31, 22, 25, and 29 for a missing atom line.
ghost use Rattle.std.specs.Prelude.{◌≡◌, ◌*◌, ◌≤◌, length, IfOk, IfErr};
ghost use Rattle.network.specs.Maxima.{atoms_most, places};
ghost use Rattle.network.specs.Refusals.{number_of};
ghost use Rattle.molfile.specs.Lines.{line_of};
ghost use Rattle.molfile.specs.Columns.{value_at};
ghost use Rattle.molfile.specs.Molfile.{first_at, second_at, counts_width};
ghost use Rattle.molfile.specs.Judging.{has_version, counts_fault, counts_value};

use molfile_lines::columns;
use network::{Network, Reason};

// The counts of atoms and bonds, where `rest` stands from the counts line on and the table lent has `room` words; or the first of these refusals,
// with the count that it names, or 0.
#[tactic(auto, using(std::proofs::lemmas::Bool::Decides::nat_tests), unfolding(molfile::specs::Judging::counts_fault, network::specs::Refusals::network_of))]
pub fn counts(rest: &[u8], room: usize) -> Result<(usize, usize), (Reason, i32)>
    ensures right { IfOk result (λ counts. (counts_fault rest.now room ≡ 0) × (counts.0 ≡ value_at (line_of rest.now) first_at) × (counts.1 ≡ value_at (line_of rest.now) second_at)) }
    ensures fits { IfOk result (λ counts. (counts.0 ≤ atoms_most) × (places * counts.0 ≤ room)) }
    ensures refused { IfErr result (λ refusal. (number_of refusal.0 ≡ counts_fault rest.now room) × (refusal.1 ≡ counts_value rest.now (number_of refusal.0))) }
{
    let line = molfile_lines::line(rest);
    if line.len() < molfile::COUNTS {
        return Err((Reason::LineMissing, 0));
    }
    if !has_version(line) {
        return Err((Reason::NoVersion, 0));
    }
    let (atoms, bonds) = columns::two_numbers(line).ok_or((Reason::NumberColumn, 0))?;
    let network = Network::of(atoms.into()).ok_or((Reason::FileAtoms, atoms.into()))?;
    if room < Network::PLACES * network.atoms {
        return Err((Reason::TableShort, 0));
    }
    if molfile_lines::skip(rest, network.atoms).is_empty() {
        return Err((Reason::LineMissing, 0));
    }
    Ok((network.atoms, bonds.into()))
}

// Whether "V2000" stands in its columns of a counts line.
fn has_version(line: &[u8]) -> bool
    requires { counts_width ≤ length line.now }
    ensures { result ≡ has_version line.now }
{
    line[molfile::VERSION_AT..].starts_with(b"V2000")
}
