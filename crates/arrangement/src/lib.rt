// Putting trees and components in their places, sorted in among others, the labels with them.
#![tactic(auto)]

ghost use Rattle.std.specs.Prelude.{◌≡◌, map, ◌+◌, ◌≤◌, ◌<◌, length};
ghost use Rattle.lists.specs.Select.{gather};
ghost use Rattle.patterns.specs.Tree.{Tree, code};
ghost use Rattle.patterns.specs.Component.{Component, flat, points as points_of};
ghost use Rattle.patterns.specs.System.{System};
ghost use Rattle.memory.specs.Memory.{Held};
ghost use Rattle.arrangement.specs.Arrangement.{points_before, SiblingsStand, Inserts};
ghost use Rattle.arrangement.specs.Arrangement.{PlaceAsked, PlaceFound, InsertAsked, ComponentInserted};

use lists::exchange;
use paths::compare_generated;
use trees::at_most;

// How many points those of the trees `siblings` have that stand before the first one that `tree` does not exceed.
fn points_before(tree: &[u8], siblings: &[u8]) -> usize
    requires { Held siblings.now }
    ensures { (result ≤ length siblings.now)
        × ((t : Tree) (c : Component) → tree.now ≡ code t → siblings.now ≡ flat c → result ≡ points_before t c) }
{
    let mut p = 0;
    // The place moves by the size of a tree: no index is counted.
    while p < siblings.len() {
        let q = p + siblings[p] as usize;
        if at_most(tree, &siblings[p..q]) {
            return p;
        }
        p = q;
    }
    p
}

// The tree from `end` to `next` goes to its place among the sorted trees from `start` to `end`, its labels with it.
pub fn insert_tree(trees: &mut [u8], labels: &mut [u8], start: usize, end: usize, next: usize)
    requires { SiblingsStand trees.old labels.old start end next }
    ensures { Inserts start end next trees.old labels.old trees.new labels.new }
{
    let p = start + points_before(&trees[end..next], &trees[start..end]);
    exchange(trees, p, end, next);
    exchange(labels, p, end, next);
}

// A place among components: how many stand before it, and how many points they have.
#[derive(Clone, Copy, Debug, PartialEq, Eq, Hash)]
pub struct Place {
    pub index: usize,
    pub at: usize,
}

// The place before the first of the components that `c` does not come after.
fn component_place(c: &[u8], sizes: &[u8], trees: &[u8]) -> Place
    requires { PlaceAsked c.now sizes.now trees.now }
    ensures { (x : Component) (S : System) → c.now ≡ flat x → sizes.now ≡ map points_of S → trees.now ≡ gather flat S
        → PlaceFound x S result }
{
    let mut at = 0;
    for (index, size) in sizes.iter().enumerate() {
        let next = at + *size as usize;
        if compare_generated(c, &trees[at..next]).is_le() {
            return Place { index, at };
        }
        at = next;
    }
    Place {
        index: sizes.len(),
        at,
    }
}

// The component from `end` to `next` goes to its place among the `m` components before it, its size and its labels with it.
pub fn insert_component(
    sizes: &mut [u8],
    m: usize,
    trees: &mut [u8],
    labels: &mut [u8],
    end: usize,
    next: usize,
)
    requires { InsertAsked sizes.old m trees.old labels.old end next }
    ensures { ComponentInserted m end next sizes.old trees.old labels.old
        sizes.new trees.new labels.new }
{
    let place = component_place(&trees[end..next], &sizes[..m], &trees[0..end]);
    sizes[m] = (next - end) as u8;
    exchange(sizes, place.index, m, m + 1);
    exchange(trees, place.at, end, next);
    exchange(labels, place.at, end, next);
}
