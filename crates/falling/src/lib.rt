// The system before with the same sizes, in place of the one in memory.
#![tactic(auto)]

ghost use Rattle.std.specs.Prelude.{◌≡◌, [], ◌∷◌, map, get_or};
ghost use Rattle.lists.specs.Order.{same};
ghost use Rattle.lists.specs.Select.{left_of};
ghost use Rattle.patterns.specs.System.{System};
ghost use Rattle.patterns.specs.Component.{Component, points, compare_component};
ghost use Rattle.component_theory.specs.Successor.{predecessor as predecessor_of};
ghost use Rattle.system_theory.specs.StepBack.{lasts, fall as fall_of};
ghost use Rattle.memory.specs.Memory.{Holds};
ghost use Rattle.bumping.specs.HeldBumps.{HeldAhead, Advanced, HeldCanonical, Bumped};
ghost use Rattle.falling.specs.HeldFalls.{HeldComponent};

use lists::equal;
use lower_sizes::last_right;
use succession::predecessor;

// Whether component i, which begins at place `at` of the trees, is its left neighbour again; the first has none.
fn repeats(sizes: &[u8], trees: &[u8], i: usize, at: usize) -> bool
    requires { HeldComponent sizes.now trees.now i at }
    ensures { (S : System) → Holds S sizes.now trees.now → result ≡ same compare_component (left_of [] [] S i) (get_or S i []) }
{
    if i == 0 {
        return false;
    }
    let size = sizes[i] as usize;
    if sizes[i - 1] as usize != size {
        return false;
    }
    equal(&trees[at - size..at], &trees[at..at + size])
}

// The first component becomes the one before it, where there is one, and the components to the right of it become the last of their sizes.
fn retreat(sizes: &[u8], trees: &mut [u8], up: &mut [u8], side: &mut [u8], out: &mut [u8]) -> bool
    requires { HeldAhead sizes.now trees.old up.old side.old out.old }
    ensures { (c : Component) (T : System) → Holds (c ∷ T) sizes.now trees.old
        → Advanced (predecessor_of c) (λ d. lasts (map points T)) result trees.old trees.new }
{
    let size = sizes[0] as usize;
    if !predecessor(
        &trees[..size],
        &mut up[..size],
        &mut side[..size],
        &mut out[..size],
    ) {
        return false;
    }
    last_right(sizes, trees);
    trees[..size].copy_from_slice(&out[..size]);
    true
}

// The system before with the same sizes, where there is one: from the right, the first component that is not its left neighbour again and has a predecessor.
pub fn fall(sizes: &[u8], trees: &mut [u8], up: &mut [u8], side: &mut [u8], out: &mut [u8]) -> bool
    requires { HeldCanonical sizes.now trees.old up.old side.old out.old }
    ensures { (S : System) → Holds S sizes.now trees.old
        → Bumped (fall_of [] S) result sizes.now trees.new }
{
    let mut at = trees.len();
    for i in (0..sizes.len()).rev() {
        at -= sizes[i] as usize;
        if !repeats(sizes, trees, i, at) && retreat(&sizes[i..], &mut trees[at..], up, side, out) {
            return true;
        }
    }
    false
}
