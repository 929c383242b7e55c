// The public entry that gives a map of a code.
#![tactic(auto)]

ghost use Rattle.patterns.specs.System.{System};
ghost use Rattle.patterns.specs.MapOf.{map_of};
ghost use Rattle.patterns.specs.Entry.{Replied, Outcome.gives, map_of_code};
ghost use Rattle.patterns.specs.Replies.{answer_of};
ghost use Rattle.memory.specs.Memory.{Holds};

use acceptance::accept_into;
use mapping::map_of;
use patterns::{Reply, points_room};
use writing::StoredSystem;
use written::put;

// Puts the map of the system into `out`.
fn put_map(system: StoredSystem, out: &mut [u8]) -> Reply
    ensures { (S : System) → Holds S system.entry.sizes.now system.entry.trees.now
        → Replied (gives (map_of S)) out.old (answer_of result) out.new }
{
    let n = system.trees.len();
    let mut table = points_room();
    map_of(system.sizes, system.trees, &mut table[..n]);
    put(&table[..n], out)
}

// Writes the map of `code`: the numbers of its trees, in written order, are the points 0, 1 and on.
pub fn map_of_code(code: &[u8], out: &mut [u8]) -> Reply
    ensures { Replied (map_of_code code.now) out.old (answer_of result) out.new }
{
    let mut sizes = points_room();
    let mut trees = points_room();
    let accepted = accept_into(code, &mut sizes, &mut trees)?;
    let system = StoredSystem {
        sizes: &sizes[..accepted.components],
        trees: &trees[..accepted.points],
    };
    put_map(system, out)
}
