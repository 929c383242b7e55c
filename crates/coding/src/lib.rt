// From a table to its system, the labels of the points beside the trees.
#![tactic(auto)]

mod labelled;

ghost use Rattle.std.specs.Prelude.{List, [], ◌∷◌, ℕ, ◌+◌, ◌<◌};
ghost use Rattle.map_theory.specs.Plants.{plant_at, plants_along};
ghost use Rattle.coding.specs.Writing.{TreeAsked, TreeOfLinks, CycleAsked, ComponentWritten};
ghost use Rattle.arrangement.specs.Arrangement.{Planted};
ghost use Rattle.coding.specs.Systems.{SystemAsked, ComponentsAsked, SystemWritten, CodedAs};

use arrangement::{insert_component, insert_tree};
use cycles::mark_cycles;
pub use labelled::LabelledSystem;
use links::{lead_cycles, link_branches};
use lists::exchange;
use patterns::points_room;
use rotation::least_start;
use tables::Table;

// The branches of each point as a list of links, from the greatest to the least: the last branch of a point, and before each branch the one before it.
#[derive(Clone, Copy)]
struct Branches<'a> {
    last: &'a [u8],
    before: &'a [u8],
}

// Writes the tree at `x` from `at` on, its labels beside it, and answers the place after it; it has at most `left` points.
// The branches come along the links, from the greatest point to the least, and each is inserted among those before it.
fn tree_at(
    branches: &Branches,
    x: usize,
    left: usize,
    trees: &mut [u8],
    labels: &mut [u8],
    at: usize,
) -> usize
    requires { TreeOfLinks branches.now.last.now branches.now.before.now x left trees.old labels.old at }
    ensures { (f : List ℕ) → TreeAsked f branches.now.last.now branches.now.before.now x left trees.old labels.old at
        → Planted (plant_at f x ∷ []) at trees.old labels.old result trees.new labels.new }
{
    let mut end = at + 1;
    let mut y = branches.last[x] as usize;
    // A list of links, each one more than its point so that 0 ends it: no index is counted.
    while 0 < y {
        let z = y - 1;
        let next = tree_at(branches, z, left - (end - at), trees, labels, end);
        insert_tree(trees, labels, at + 1, end, next);
        end = next;
        y = branches.before[z] as usize;
    }
    trees[at] = (end - at) as u8;
    labels[at] = x as u8;
    end
}

// Writes the trees along the cycle from `x` on, and answers the place after them.
fn trees_along(
    f: &[u8],
    branches: &Branches,
    x: usize,
    trees: &mut [u8],
    labels: &mut [u8],
    at: usize,
) -> usize
    requires { CycleAsked f.now branches.now.last.now branches.now.before.now x trees.old labels.old at }
    ensures { Planted (plants_along f.now x) at trees.old labels.old result trees.new labels.new }
{
    let n = f.len();
    let mut end = tree_at(branches, x, n - at, trees, labels, at);
    let mut y = f[x] as usize;
    // The table tells where the walk goes on, and x where it ends: no index is counted.
    while y != x {
        end = tree_at(branches, y, n - end, trees, labels, end);
        y = f[y] as usize;
    }
    end
}

// Writes the component whose cycle goes through `x` from `at` on, its labels beside it, and answers the place after it.
fn component_at(
    f: &[u8],
    branches: &Branches,
    x: usize,
    trees: &mut [u8],
    labels: &mut [u8],
    at: usize,
) -> usize
    requires { CycleAsked f.now branches.now.last.now branches.now.before.now x trees.old labels.old at }
    ensures { ComponentWritten f.now x at trees.old labels.old result trees.new labels.new }
{
    let end = trees_along(f, branches, x, trees, labels, at);
    let p = at + least_start(&trees[at..end]);
    exchange(trees, at, p, end);
    exchange(labels, at, p, end);
    end
}

// Writes the components of the table, their sizes, their trees and beside these the labels, and answers how many there are.
// They come from the greatest leader of a cycle to the least, and each is inserted among those before it.
fn components_of(
    f: &[u8],
    leads: &[u8],
    branches: &Branches,
    sizes: &mut [u8],
    trees: &mut [u8],
    labels: &mut [u8],
) -> usize
    requires { ComponentsAsked f.now leads.now branches.now.last.now branches.now.before.now sizes.old trees.old labels.old }
    ensures { SystemWritten f.now result sizes.new trees.new labels.new }
{
    let mut m = 0;
    let mut end = 0;
    for x in (0..f.len()).rev() {
        if leads[x] as usize == x {
            let next = component_at(f, branches, x, trees, labels, end);
            insert_component(sizes, m, trees, labels, end, next);
            m += 1;
            end = next;
        }
    }
    m
}

// Writes the system of the table, its sizes, its trees and beside these the labels, and answers how many components it has.
pub fn system_of(
    table: Table,
    marks: &[u8],
    sizes: &mut [u8],
    trees: &mut [u8],
    labels: &mut [u8],
) -> usize
    requires { SystemAsked table.images.now marks.now sizes.old trees.old labels.old }
    ensures { SystemWritten table.entry.images.now result sizes.new trees.new labels.new }
{
    let f = table.images;
    let n = f.len();
    let mut last = points_room();
    let mut before = points_room();
    link_branches(table, marks, &mut last[..n], &mut before[..n]);
    let mut leads = points_room();
    lead_cycles(table, marks, &mut leads[..n]);
    let branches = Branches {
        last: &last[..n],
        before: &before[..n],
    };
    components_of(f, &leads[..n], &branches, sizes, trees, labels)
}

// The system of the table by value, its labels beside it.
pub fn coded(table: Table) -> LabelledSystem
    ensures { CodedAs table.entry.images.now result }
{
    let points = table.images.len();
    let mut marks = points_room();
    mark_cycles(table, &mut marks[..points]);
    let mut sizes = points_room();
    let mut trees = points_room();
    let mut labels = points_room();
    let components = system_of(
        table,
        &marks[..points],
        &mut sizes[..points],
        &mut trees[..points],
        &mut labels[..points],
    );
    LabelledSystem {
        sizes,
        trees,
        labels,
        components,
        points,
    }
}
