// Flat trees: a tree is the slice of its code, a byte for each point, and a component is the codes of its trees one after another.
#![tactic(auto)]

ghost use Rattle.std.specs.Prelude.{◌≡◌, ◌∷◌, length};
ghost use Prim.Native.Nat.{compare as compare_numbers};
ghost use Rattle.lists.specs.Order.{lex, at_most};
ghost use Rattle.lists.specs.Select.{each};
ghost use Rattle.patterns.specs.Tree.{Tree, merge, code, branches, valid_tree};
ghost use Rattle.patterns.specs.Component.{Component, flat};
ghost use Rattle.memory.specs.Memory.{Held, HeldTree};
ghost use Rattle.trees.specs.Beginnings.{leading_points, last_start};
ghost use Rattle.trees.specs.HeldNeighbours.{behind, HeldNeighbours};

mod codes;

pub use codes::Trees;
use lists::{compare, exchange};

// `s` is not greater than `t`.
pub fn at_most(s: &[u8], t: &[u8]) -> bool
    ensures { result ≡ at_most (lex compare_numbers) s.now t.now }
{
    compare(s, t).is_le()
}

// How many of its first branches are single points. They are counted and not walked, here and in `count`, since most trees and cycles begin with many.
fn first_points(s: &[u8]) -> usize
    requires { HeldTree s.now }
    ensures { (t : Tree) → s.now ≡ code t → result ≡ leading_points (branches t) }
{
    leading(&s[1..])
}

// Every point of the tree has its branches in nondecreasing order [document 004, Definition 1].
pub fn valid_tree(s: &[u8]) -> bool
    requires { HeldTree s.now }
    ensures { (t : Tree) → s.now ≡ code t → result ≡ valid_tree t }
{
    let points = first_points(s);
    let mut last = points.max(1);
    let mut at = points + 1;
    // Kept: nothing is counted, the size of a branch leads on to the next, and each branch is held against the one before it.
    while at < s.len() {
        let end = at + s[at] as usize;
        if !valid_tree(&s[at..end]) {
            return false;
        }
        if !at_most(&s[last..at], &s[at..end]) {
            return false;
        }
        last = at;
        at = end;
    }
    true
}

// All trees of the component are valid.
pub fn valid_trees(s: &[u8]) -> bool
    requires { Held s.now }
    ensures { (c : Component) → s.now ≡ flat c → result ≡ each valid_tree c }
{
    for tree in Trees::new(s) {
        if !valid_tree(tree) {
            return false;
        }
    }
    true
}

// The number of trees.
pub fn count(s: &[u8]) -> usize
    requires { Held s.now }
    ensures { (c : Component) → s.now ≡ flat c → result ≡ length c }
{
    let points = leading(s);
    if points == s.len() {
        return points;
    }
    points + Trees::new(&s[points..]).count()
}

// The number of trees of one point before the first tree of more.
pub fn leading(s: &[u8]) -> usize
    requires { Held s.now }
    ensures { (c : Component) → s.now ≡ flat c → result ≡ leading_points c }
{
    s.iter().position(|size| *size != 1).unwrap_or(s.len())
}

// Where the last branch of the tree begins.
pub fn last_branch(s: &[u8]) -> usize
    requires { HeldTree s.now }
    ensures { (t : Tree) → s.now ≡ code t → result ≡ last_start t }
{
    let points = first_points(s);
    let mut last = points.max(1);
    let mut at = points + 1;
    // Kept: the answer is a place, and going on by the sizes gives it; std has no lemma for `last` on an iterator of one's own.
    while at < s.len() {
        last = at;
        at += s[at] as usize;
    }
    last
}

// The trees at `i` and behind it merged, the first with the second as its last branch.
pub fn merge_left(s: &[u8], i: usize, out: &mut [u8])
    requires { HeldNeighbours s.now i out.old }
    ensures { (t u : Tree) (c : Component) → s.now ≡ flat (behind i (t ∷ u ∷ c)) → out.new ≡ flat (behind i (merge t u ∷ c)) }
{
    out.copy_from_slice(s);
    let j = i + s[i] as usize;
    out[i] = s[i] + s[j];
}

// The trees at `i` and behind it merged, the second with the first as its last branch.
pub fn merge_right(s: &[u8], i: usize, out: &mut [u8])
    requires { HeldNeighbours s.now i out.old }
    ensures { (t u : Tree) (c : Component) → s.now ≡ flat (behind i (t ∷ u ∷ c)) → out.new ≡ flat (behind i (merge u t ∷ c)) }
{
    out.copy_from_slice(s);
    let j = i + s[i] as usize;
    let e = j + s[j] as usize;
    exchange(out, i, j, e);
    out[i] = s[j] + s[i];
}
