// The rows of the new table: the neighbours of atom x, under their new names and ascending, go to row names[x].
ghost use Rattle.std.specs.Prelude.{◌≡◌, length};
ghost use Rattle.network.specs.Maxima.{places};
ghost use Rattle.network.specs.Network.{IsNetwork};
ghost use Rattle.names.specs.Names.{OneToOne};
ghost use Rattle.renumber.specs.Rows.{OldRow, NewRow};
ghost use Rattle.renumber.specs.Outcome.{Renumbered};

use network::Network;

// Every row of the new table, in the order of the old numbers.
pub fn rename_rows(table: &[u16], names: &[u16], renamed: &mut [u16])
    requires { IsNetwork (length names.now) table.now × OneToOne (length names.now) names.now × (length renamed.old ≡ length table.now) }
    ensures { Renumbered (length names.now) table.now names.now renamed.new }
{
    for (x, name) in names.iter().enumerate() {
        let from = x * Network::PLACES;
        let to = *name as usize * Network::PLACES;
        rename_row(
            &table[from..from + Network::PLACES],
            names,
            &mut renamed[to..to + Network::PLACES],
        );
    }
}

// One row of the new table. Free places come last, as their word is the greatest.
// Kept: a free place is its word and no None, because the tables lent have it so (document 01).
fn rename_row(row: &[u16], names: &[u16], renamed: &mut [u16])
    requires { OldRow (length names.now) row.now × OneToOne (length names.now) names.now × (length renamed.old ≡ places) }
    ensures { NewRow names.now row.now renamed.new }
{
    for (p, word) in row.iter().enumerate() {
        renamed[p] = if *word == Network::FREE {
            Network::FREE
        } else {
            names[*word as usize]
        };
    }
    renamed.sort_unstable();
}
