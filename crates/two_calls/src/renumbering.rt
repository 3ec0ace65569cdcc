// Demand 3: a network is renumbered, and listed or counted as it was and as renumbered.
//
// Where the renumbering is refused, what stands in the new table is listed or counted.
ghost use Rattle.demands.specs.Renumbering.{here_and_there_told, RenumberThenList, RenumberThenCount};

use demands::HereAndThere;

// Renumbers, then lists the network as it was into `dist` and `list`, and as renumbered into `dist2` and `list2`.
pub fn renumber_then_list(
    n: usize,
    table: &[u16],
    names: &[u16],
    renamed: &mut [u16],
    limit: usize,
    allowance: usize,
    dist: &mut [u8],
    list: &mut [u16],
    dist2: &mut [u8],
    list2: &mut [u16],
) -> HereAndThere
    ensures { RenumberThenList n table.now names.now renamed.old renamed.new limit allowance dist.old dist.new list.old list.new dist2.old dist2.new list2.old list2.new (here_and_there_told result) }
{
    let renumbering = renumber::renumber(n, table, names, renamed);
    let here = search::list(n, table, limit, allowance, dist, list);
    let there = search::list(n, renamed, limit, allowance, dist2, list2);
    HereAndThere {
        renumbering,
        here,
        there,
    }
}

// The same of counting.
// Kept: two functions, since RenumberThenList and RenumberThenCount are ensured each; a closure for the search would be lent other buffers at each call.
pub fn renumber_then_count(
    n: usize,
    table: &[u16],
    names: &[u16],
    renamed: &mut [u16],
    limit: usize,
    allowance: usize,
    dist: &mut [u8],
    dist2: &mut [u8],
) -> HereAndThere
    ensures { RenumberThenCount n table.now names.now renamed.old renamed.new limit allowance dist.old dist.new dist2.old dist2.new (here_and_there_told result) }
{
    let renumbering = renumber::renumber(n, table, names, renamed);
    let here = search::count(n, table, limit, allowance, dist);
    let there = search::count(n, renamed, limit, allowance, dist2);
    HereAndThere {
        renumbering,
        here,
        there,
    }
}
