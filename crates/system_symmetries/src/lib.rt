// How many isomorphisms a system of at most 15 points has to itself, component by component.
#![tactic(auto)]

ghost use Rattle.std.specs.Prelude.{◌≡◌, ◌≤◌, length};
ghost use Rattle.patterns.specs.Component.{Component, flat, compare_component};
ghost use Rattle.patterns.specs.System.{System};
ghost use Rattle.memory.specs.Memory.{Holds, HeldSystem};
ghost use Rattle.memory.specs.HeldCode.{HeldValid, HeldCanonical};
ghost use Rattle.counting_theory.specs.Symmetries.{copies, component_symmetries, symmetries as symmetries_of};

use components::least_rotation;
use lists::equal;
use tree_symmetries::trees_symmetries;

// The symmetries of a component: it can be turned so that it equals itself [document 02, paper 6], and each tree has its own. No rotation of the component is less, so the
// second arm is never taken.
fn component_symmetries(s: &[u8]) -> u64
    requires { HeldValid s.now × (length s.now ≤ 15) }
    ensures { (c : Component) → s.now ≡ flat c → result ≡ component_symmetries c }
{
    let trees = trees_symmetries(s);
    match least_rotation(s) {
        Some(turns) => turns as u64 * trees,
        None => 0,
    }
}

// How many components of the system equal `component`.
fn equal_components(component: &[u8], sizes: &[u8], trees: &[u8]) -> u64
    requires { HeldSystem sizes.now trees.now }
    ensures { (c : Component) (S : System) → component.now ≡ flat c → Holds S sizes.now trees.now
        → result ≡ copies compare_component c S }
{
    let mut n = 0;
    let mut at = 0;
    for size in sizes {
        let end = at + *size as usize;
        if equal(component, &trees[at..end]) {
            n += 1;
        }
        at = end;
    }
    n
}

// The symmetries of a system: each component can take the place of those before it that equal it.
pub fn symmetries(sizes: &[u8], trees: &[u8]) -> u64
    requires { HeldCanonical sizes.now trees.now × (length trees.now ≤ 15) }
    ensures { (S : System) → Holds S sizes.now trees.now → result ≡ symmetries_of S }
{
    let mut product = 1;
    let mut at = 0;
    for (i, size) in sizes.iter().enumerate() {
        let end = at + *size as usize;
        let before = equal_components(&trees[at..end], &sizes[..i], &trees[..at]);
        let own = component_symmetries(&trees[at..end]);
        product = (before + 1) * own * product;
        at = end;
    }
    product
}
