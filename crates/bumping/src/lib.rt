// The next system with the same sizes, in place of the one in memory.
#![tactic(auto)]

ghost use Rattle.std.specs.Prelude.{◌∷◌, map};
ghost use Rattle.patterns.specs.System.{System};
ghost use Rattle.patterns.specs.Component.{Component, points};
ghost use Rattle.component_theory.specs.Successor.{successor as successor_of};
ghost use Rattle.system_theory.specs.Step.{fills, bump as bump_of};
ghost use Rattle.memory.specs.Memory.{Holds};
ghost use Rattle.bumping.specs.HeldBumps.{HeldAhead, Advanced, HeldCanonical, Bumped};

use size_lists::fill_right;
use succession::successor;

// The first component becomes its successor, where it has one, and the components to the right of it are filled in.
fn advance(sizes: &[u8], trees: &mut [u8], up: &mut [u8], side: &mut [u8], out: &mut [u8]) -> bool
    requires { HeldAhead sizes.now trees.old up.old side.old out.old }
    ensures { (c : Component) (T : System) → Holds (c ∷ T) sizes.now trees.old
        → Advanced (successor_of c) (λ d. fills d (map points T)) result trees.old trees.new }
{
    let size = sizes[0] as usize;
    if !successor(
        &trees[..size],
        &mut up[..size],
        &mut side[..size],
        &mut out[..size],
    ) {
        return false;
    }
    fill_right(&out[..size], sizes, trees);
    true
}

// The next system with the same sizes, where there is one: from the right, the first component that has a successor.
pub fn bump(sizes: &[u8], trees: &mut [u8], up: &mut [u8], side: &mut [u8], out: &mut [u8]) -> bool
    requires { HeldCanonical sizes.now trees.old up.old side.old out.old }
    ensures { (S : System) → Holds S sizes.now trees.old
        → Bumped (bump_of S) result sizes.now trees.new }
{
    let mut at = trees.len();
    for i in (0..sizes.len()).rev() {
        at -= sizes[i] as usize;
        if advance(&sizes[i..], &mut trees[at..], up, side, out) {
            return true;
        }
    }
    false
}
