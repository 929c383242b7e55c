// A merge of two neighbouring trees of a component, where it is a child [document 004, Lemma 12].
// A component is flat: a slice of as many bytes as it has points, the codes of its trees one after another.
#![tactic(auto)]

ghost use Rattle.std.specs.Prelude.{◌≡◌, ℕ, suc, ◌+◌, length};
ghost use Rattle.lists.specs.Order.{at_most};
ghost use Rattle.lists.specs.Select.{each, first};
ghost use Rattle.patterns.specs.Component.{Component, flat, compare_component, rotations};
ghost use Rattle.component_theory.specs.ChildPlaces.{child_at};
ghost use Rattle.memory.specs.Memory.{Held};
ghost use Rattle.children.specs.Candidates.{HeldCandidate, Gave};

use components::least_rotation;
use trees::{at_most, last_branch, merge_left, merge_right};

// No rotation of the component is less.
fn is_least(s: &[u8]) -> bool
    requires { Held s.now }
    ensures { (c : Component) → s.now ≡ flat c → result ≡ each (at_most compare_component c) (rotations c) }
{
    least_rotation(s).is_some()
}

// The left merge at `i`, where it is a child.
pub fn left_child(s: &[u8], i: usize, out: &mut [u8]) -> bool
    requires { HeldCandidate s.now i out.old }
    ensures { (c : Component) → s.now ≡ flat c → Gave (first (child_at c i)) result out.new }
{
    let j = i + s[i] as usize;
    let e = j + s[j] as usize;
    if !at_most(&s[i..j], &s[j..e]) {
        return false;
    }
    merge_left(s, i, out);
    is_least(out)
}

// The right merge at `i`, where it is a child and not the left merge too.
pub fn right_child(s: &[u8], i: usize, out: &mut [u8]) -> bool
    requires { HeldCandidate s.now i out.old }
    ensures { (c : Component) (n : ℕ) → s.now ≡ flat c → length c ≡ suc n → Gave (first (child_at c (n + i))) result out.new }
{
    let j = i + s[i] as usize;
    let e = j + s[j] as usize;
    if at_most(&s[j..e], &s[i..j]) {
        return false;
    }
    let l = j + last_branch(&s[j..e]);
    if at_most(&s[l..e], &s[i..j]) {
        merge_right(s, i, out);
        return is_least(out);
    }
    false
}
