// The bond lines: refusals 29, 31, 32 and 27, bond by bond.
ghost use Rattle.std.specs.Prelude.{◌≡◌, [], ◌+◌, ◌<◌, IfOk, MatchResult};
ghost use Rattle.std.specs.Result.{result_err};
ghost use Rattle.network.specs.Refusals.{number_or_0, answer_of};
ghost use Rattle.bonds.specs.Scan.{first_bond};
ghost use Rattle.molfile.specs.Lines.{line_at};
ghost use Rattle.molfile.specs.Columns.{value_at};
ghost use Rattle.molfile.specs.Molfile.{first_at, second_at};
ghost use Rattle.molfile.specs.Judging.{pair_fault};
ghost use Rattle.molfile.specs.Rows.{Held, rows_fault, PairsHeld};

use crate::rows::Rows;
use molfile_lines::columns;
use network::{Reason, Refusal};

// The rows, which are free, come to hold the bonds whose lines `rest` begins with, so many of them; or the first of these refusals.
// Kept: the rows are lent, since each Result that holds them by value takes 4,000 bytes more of the stack.
pub fn hold(rest: &[u8], bonds: usize, rows: &mut Rows) -> Result<(), Refusal>
    requires { Held rows.old.words [] }
    ensures atoms { rows.new.atoms ≡ rows.old.atoms }
    ensures held { MatchResult result (λ _. PairsHeld rows.old.atoms rest.now bonds rows.new.words) (λ refusal. answer_of refusal ≡ first_bond (pair_fault rows.old.atoms (line_at rest.now)) bonds 0) }
{
    let mut rest = rest;
    for k in 0..bonds {
        let (x, y) = bond(molfile_lines::line(rest), rows).map_err(|reason| reason.at(k))?;
        rows.join(x, y);
        rest = molfile_lines::past_line(rest);
    }
    Ok(())
}

// The two atoms of a bond line, where the rows hold the bonds before it.
#[tactic(auto, using(std::proofs::lemmas::Bool::Decides::nat_tests), unfolding(molfile::specs::Rows::rows_fault, molfile::specs::Rows::held_fault))]
fn bond(line: &[u8], rows: &Rows) -> Result<(u16, u16), Reason>
    ensures fault { number_or_0 (result_err result) ≡ rows_fault rows.now.atoms line.now rows.now.words }
    ensures atoms { IfOk result (λ bond. (bond.0 < rows.now.atoms) × (bond.1 < rows.now.atoms) × (bond.0 + 1 ≡ value_at line.now first_at) × (bond.1 + 1 ≡ value_at line.now second_at)) }
{
    if line.len() < molfile::BOND {
        return Err(Reason::LineMissing);
    }
    let (first, second) = columns::two_numbers(line).ok_or(Reason::NumberColumn)?;
    let x = rows.atom(first).ok_or(Reason::BondLine)?;
    let y = rows.atom(second).ok_or(Reason::BondLine)?;
    if x == y || rows.are_bonded(x, y) {
        return Err(Reason::BondLine);
    }
    if rows.is_full(x) || rows.is_full(y) {
        return Err(Reason::NinthBond);
    }
    Ok((x, y))
}
