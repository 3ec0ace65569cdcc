// Refusals 7 to 11: the first word of a table that is at fault. Word i stands in row i / 8, at place i % 8.
ghost use Rattle.std.specs.Prelude.{◌≡◌, ℕ, ◌*◌, ◌<◌, length};
ghost use Rattle.network.specs.Maxima.{places};
ghost use Rattle.network.specs.Refusals.{told, number_or_0};
ghost use Rattle.network.specs.Verdict.{accepted, faults, place_fault, bond_fault, WordsBelow};
ghost use Rattle.validator.specs.Scan.{FirstOf};

use network::{Network, Reason, Refusal};

// The first of faults 7 to 11; 11 only where no word has another.
pub fn faults_in(n: usize, table: &[u16]) -> Result<(), Refusal>
    requires { length table.now ≡ places * n }
    ensures { told result ≡ faults n table.now accepted }
{
    first_fault(table.len(), |i| place_fault(n, table, i))?;
    first_fault(table.len(), |i| bond_fault(n, table, i))
}

// The first fault that `fault_at` finds among so many words.
fn first_fault<F: Fn(usize) -> Option<Reason>>(words: usize, fault_at: F) -> Result<(), Refusal>
    requires { (i : ℕ) → i < words → F.pre fault_at i }
    ensures { FirstOf (F.post fault_at) words (told result) }
{
    for i in 0..words {
        if let Some(reason) = fault_at(i) {
            return Err(Refusal {
                reason,
                row: i / Network::PLACES,
                place: i % Network::PLACES,
            });
        }
    }
    Ok(())
}

// The fault 7 to 10 of word i.
fn place_fault(n: usize, table: &[u16], i: usize) -> Option<Reason>
    requires { i < length table.now }
    ensures { number_or_0 result ≡ place_fault n table.now i }
{
    let word = table[i];
    if word == Network::FREE {
        return None;
    }
    if n <= word as usize {
        return Some(Reason::NoAtom);
    }
    if i % Network::PLACES == 0 {
        if word as usize == i / Network::PLACES {
            return Some(Reason::OwnNeighbour);
        }
        return None;
    }
    let before = table[i - 1];
    if before == Network::FREE {
        return Some(Reason::AfterFree);
    }
    if word as usize == i / Network::PLACES {
        return Some(Reason::OwnNeighbour);
    }
    if word <= before {
        return Some(Reason::OutOfOrder);
    }
    None
}

// The fault 11 of word i.
fn bond_fault(n: usize, table: &[u16], i: usize) -> Option<Reason>
    requires { (i < length table.now) × (length table.now ≡ places * n) × WordsBelow n table.now }
    ensures { number_or_0 result ≡ bond_fault table.now i }
{
    let word = table[i];
    if word == Network::FREE {
        return None;
    }
    if network::stands_in(table, i / Network::PLACES, word as usize) {
        return None;
    }
    Some(Reason::Unanswered)
}
