// A whole code in memory: whether it is canonical.
//
// A system is two lent slices: `sizes`, the points of each component, and `trees`, the components one after another.
#![tactic(auto)]

ghost use Rattle.std.specs.Prelude.{◌≡◌};
ghost use Rattle.lists.specs.Order.{at_most};
ghost use Rattle.patterns.specs.System.{System, compare_generated, canonical as canonical_system};
ghost use Rattle.patterns.specs.Component.{Component, flat};
ghost use Rattle.memory.specs.Memory.{Holds, HeldSystem};
ghost use Rattle.paths.specs.HeldPaths.{HeldPair};

use components::valid_component;
use paths::compare_generated;

// `right` does not come before `left`.
fn follows(left: &[u8], right: &[u8]) -> bool
    requires { HeldPair left.now right.now }
    ensures { (p c : Component) → left.now ≡ flat p → right.now ≡ flat c → result ≡ at_most compare_generated p c }
{
    compare_generated(left, right).is_le()
}

// Every component is valid, and none comes before its left neighbour [document 004, Definition 14].
pub fn canonical(sizes: &[u8], trees: &[u8]) -> bool
    requires { HeldSystem sizes.now trees.now }
    ensures { (S : System) → Holds S sizes.now trees.now → result ≡ canonical_system S }
{
    let mut last = 0;
    let mut at = 0;
    for size in sizes {
        let next = at + *size as usize;
        if !valid_component(&trees[at..next]) {
            return false;
        }
        if !follows(&trees[last..at], &trees[at..next]) {
            return false;
        }
        last = at;
        at = next;
    }
    true
}
