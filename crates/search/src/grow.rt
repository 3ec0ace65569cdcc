// The search: a path grows by one atom after another, in the order of the list.
ghost use Rattle.std.specs.Prelude.{◌≡◌, ◌+◌, ◌-◌, ◌≤◌};
ghost use Rattle.ring.specs.Maxima.{ring_least, ring_most};
ghost use Rattle.paths.specs.Search.{rings_of, rings_up_to};
ghost use Rattle.paths.specs.Turn.{may_follow, Hint};
ghost use Rattle.search.specs.Given.{Given};
ghost use Rattle.search.specs.State.{HasNoted, rings_on};
ghost use Rattle.search.specs.Tallied.{Tallied};

use crate::net::Net;
use crate::path::Path;
use crate::state::{Notes, Search};
use network::Network;
use ring::Ring;

// How many rings are found of each length, and their lengths added up.
#[derive(Drop)]
pub struct Tally {
    pub counts: [u32; Ring::LENGTH + 1],
    pub lengths: usize,
}

// Every ring as far as the limit, shorter ones first.
pub fn each_length(net: Net, limit: usize, notes: &mut Notes) -> Tally
    requires { (ring_least ≤ limit) × (limit ≤ ring_most) }
    ensures noted { let m = net.entry in HasNoted (rings_up_to may_follow m.n m.table.now m.dist.now (limit + 1 - ring_least)) notes.old notes.new }
    ensures same_list { notes.new.list.ghost_name ≡ notes.old.list.ghost_name }
    ensures tallied { let m = net.entry in Tallied m.n m.table.now m.dist.now (limit + 1 - ring_least) notes.new.found result }
{
    let mut counts = [0u32; Ring::LENGTH + 1];
    let mut lengths: usize = 0;
    for k in Ring::LEAST..=limit {
        let before = notes.found.rings;
        from_each(net, k, notes);
        let more = notes.found.rings - before;
        counts[k] = more;
        lengths += k * more as usize;
    }
    Tally { counts, lengths }
}

// Every ring of k atoms, first atoms ascending.
fn from_each(net: Net, k: usize, notes: &mut Notes)
    requires { (ring_least ≤ k) × (k ≤ ring_most) }
    ensures noted { let m = net.entry in HasNoted (rings_of may_follow m.n m.table.now m.dist.now k) notes.old notes.new }
    ensures same_list { notes.new.list.ghost_name ≡ notes.old.list.ghost_name }
{
    for first in 0..net.n {
        let mut path = Path::of(first as u16);
        grow(net, k, &mut path, first + 1, notes);
    }
}

// Every ring that begins with the path, which is lengthened by one atom after another until it is whole.
// Kept: the path beside what stays as it is: as a method of one `&mut Search` that holds both, listing a 7-cube at limit 24 takes 175 ms, and so 145.
fn grow(net: Net, k: usize, path: &mut Path, from: usize, notes: &mut Notes)
    requires given { Given net.n k path.old }
    requires hint { Hint net.n net.dist.now k path.old from }
    ensures kept { path.new ≡ path.old }
    ensures noted { HasNoted (rings_on net.entry k path.old) notes.old notes.new }
    ensures same_list { notes.new.list.ghost_name ≡ notes.old.list.ghost_name }
{
    if notes.found.over {
        return;
    }
    let len = path.len();
    if len == k {
        let search = Search { net, k, path };
        if search.is_ring() {
            notes.note(path.words());
        }
        return;
    }
    let last = path.at(len - 1);
    for place in 0..Network::PLACES {
        let atom = net.word(last, place);
        if net.n <= atom as usize {
            return;
        }
        let search = Search { net, k, path };
        if let Some(next) = search.may_follow(atom as usize, from) {
            path.push(atom);
            grow(net, k, path, next, notes);
            path.cut(len);
        }
    }
}
