// How many isomorphisms a tree has to itself, and how many the trees of a component have, each to itself. Nothing here is longer than 15 bytes, so that every number is at
// most 15!.
#![tactic(auto)]

ghost use Rattle.std.specs.Prelude.{◌≡◌, ◌≤◌, length};
ghost use Rattle.patterns.specs.Tree.{Tree, code, compare_tree};
ghost use Rattle.patterns.specs.Component.{Component, flat};
ghost use Rattle.memory.specs.Memory.{Held, HeldTree};
ghost use Rattle.counting_theory.specs.Symmetries.{product, copies, tree_symmetries};

use lists::equal;

// How many trees of `row` equal `tree`.
fn equal_trees(tree: &[u8], row: &[u8]) -> u64
    requires { Held row.now }
    ensures { (t : Tree) (c : Component) → tree.now ≡ code t → row.now ≡ flat c → result ≡ copies compare_tree t c }
{
    let mut n = 0;
    let mut at = 0;
    // The place moves by the size of a tree: no index is counted.
    while at < row.len() {
        let end = at + row[at] as usize;
        if equal(tree, &row[at..end]) {
            n += 1;
        }
        at = end;
    }
    n
}

// The symmetries of a tree: each branch can take the place of those before it that equal it.
fn tree_symmetries(s: &[u8]) -> u64
    requires { HeldTree s.now × (length s.now ≤ 15) }
    ensures { (t : Tree) → s.now ≡ code t → result ≡ tree_symmetries t }
{
    let mut product = 1;
    let mut at = 1;
    // The place moves by the size of a branch: no index is counted.
    while at < s.len() {
        let end = at + s[at] as usize;
        let before = equal_trees(&s[at..end], &s[1..at]);
        let own = tree_symmetries(&s[at..end]);
        product = (before + 1) * own * product;
        at = end;
    }
    product
}

// The product of the symmetries of all trees of a component.
pub fn trees_symmetries(s: &[u8]) -> u64
    requires { Held s.now × (length s.now ≤ 15) }
    ensures { (c : Component) → s.now ≡ flat c → result ≡ product tree_symmetries c }
{
    let mut product = 1;
    let mut at = 0;
    // The place moves by the size of a tree: no index is counted.
    while at < s.len() {
        let end = at + s[at] as usize;
        product *= tree_symmetries(&s[at..end]);
        at = end;
    }
    product
}
