// The public entry that gives an isomorphism between two maps.
#![tactic(auto)]

ghost use Rattle.std.specs.Prelude.{◌≡◌, ◌↔◌, IsTrue, length};
ghost use Rattle.patterns.specs.Entry.{IsomorphismReplied};
ghost use Rattle.patterns.specs.Replies.{isomorphism_answer};
ghost use Rattle.coding.specs.Systems.{sizes_of, trees_of};

use coding::{LabelledSystem, coded};
use matching::put_sent;
use patterns::Found;
use tables::Table;

// Two systems are the same: their sizes are, and their trees.
fn same_system(a: &LabelledSystem, b: &LabelledSystem) -> bool
    ensures { IsTrue result ↔ (sizes_of a.now ≡ sizes_of b.now) × (trees_of a.now ≡ trees_of b.now) }
{
    a.sizes() == b.sizes() && a.trees() == b.trees()
}

// Puts an isomorphism between two tables of equally many points into `out`, or says "none": they have one exactly if they have the same system.
fn put_isomorphism(f: Table, g: Table, out: &mut [u8]) -> Found
    requires { length g.images.now ≡ length f.images.now }
    ensures { IsomorphismReplied f.entry.images.now g.entry.images.now out.old (isomorphism_answer result) out.new }
{
    let a = coded(f);
    let b = coded(g);
    if !same_system(&a, &b) {
        return Ok(None);
    }
    put_sent(a.labels(), b.labels(), out)
}

// Writes an isomorphism [document 01: renaming] from the map `f` to the map `g`, or says "none".
pub fn isomorphism(f: &[u8], g: &[u8], out: &mut [u8]) -> Found
    ensures { IsomorphismReplied f.now g.now out.old (isomorphism_answer result) out.new }
{
    let f = Table::check(f)?;
    let g = Table::check(g)?;
    if f.images.len() != g.images.len() {
        return Ok(None);
    }
    put_isomorphism(f, g, out)
}
