// The last child before a place.
ghost use Rattle.std.specs.Prelude.{◌≡◌, suc, ◌+◌, ◌≤◌};
ghost use Rattle.patterns.specs.Component.{Component, flat};
ghost use Rattle.component_theory.specs.ChildPlaces.{child_before};
ghost use Rattle.children.specs.Candidates.{Gave};
ghost use Rattle.scanning.specs.HeldNodes.{Node, AsLong, PlaceIn, HeldScan, Passed};

use children::{left_child, right_child};
use trees::{count, leading};

// The last child among the left merges before place `to`.
fn scan_left_down(s: &[u8], to: usize, pairs: usize, lead: usize, out: &mut [u8]) -> bool
    requires { HeldScan s.now pairs lead out.old × (to ≤ pairs) × (to ≤ suc lead) }
    ensures { (c : Component) → s.now ≡ flat c → Gave (child_before c to) result out.new }
{
    for i in (0..to).rev() {
        if left_child(s, i, out) {
            return true;
        }
    }
    false
}

// The last child among the right merges before place `to`.
fn scan_right_down(s: &[u8], to: usize, pairs: usize, lead: usize, out: &mut [u8]) -> bool
    requires { HeldScan s.now pairs lead out.old × (to ≤ pairs) × (to ≤ suc lead) }
    ensures { (c : Component) → s.now ≡ flat c → Passed child_before c (pairs + to) pairs result out.new }
{
    for i in (0..to).rev() {
        if right_child(s, i, out) {
            return true;
        }
    }
    false
}

// The last child before place `to` of the candidates. Of the pairs only those up to the first tree of more than one point have a merge that is a child.
pub fn scan_down(s: &[u8], to: usize, out: &mut [u8]) -> bool
    requires { Node s.now × AsLong s.now out.old × PlaceIn s.now to }
    ensures { (c : Component) → s.now ≡ flat c → Gave (child_before c to) result out.new }
{
    let pairs = count(s) - 1;
    let lead = leading(s);
    let reach = pairs.min(lead + 1);
    if to <= pairs {
        return scan_left_down(s, to.min(reach), pairs, lead, out);
    }
    if scan_right_down(s, (to - pairs).min(reach), pairs, lead, out) {
        return true;
    }
    scan_left_down(s, reach, pairs, lead, out)
}
