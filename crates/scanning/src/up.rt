// The first child from a place on. The left and the right merges are looked through by a function each: what they say of the places that are left differs, and one
// function over a closure that tries a merge would need that closure's contract for each.
ghost use Rattle.std.specs.Prelude.{◌≡◌, ◌+◌, ◌≤◌};
ghost use Rattle.patterns.specs.Component.{Component, flat};
ghost use Rattle.component_theory.specs.ChildPlaces.{child_from};
ghost use Rattle.children.specs.Candidates.{Gave};
ghost use Rattle.scanning.specs.HeldNodes.{Node, AsLong, HeldScan, Passed};

use children::{left_child, right_child};
use trees::{count, leading};

// The first child among the left merges from place `from` on.
fn scan_left(s: &[u8], from: usize, pairs: usize, lead: usize, out: &mut [u8]) -> bool
    requires { HeldScan s.now pairs lead out.old × (from ≤ pairs) }
    ensures { (c : Component) → s.now ≡ flat c → Passed child_from c from pairs result out.new }
{
    for i in from..pairs {
        if lead < i {
            return false;
        }
        if left_child(s, i, out) {
            return true;
        }
    }
    false
}

// The first child among the right merges from place `from` on.
fn scan_right(s: &[u8], from: usize, pairs: usize, lead: usize, out: &mut [u8]) -> bool
    requires { HeldScan s.now pairs lead out.old }
    ensures { (c : Component) → s.now ≡ flat c → Gave (child_from c (pairs + from)) result out.new }
{
    for i in from..pairs {
        if lead < i {
            return false;
        }
        if right_child(s, i, out) {
            return true;
        }
    }
    false
}

// The first child from place `from` of the candidates on.
pub fn scan(s: &[u8], from: usize, out: &mut [u8]) -> bool
    requires { Node s.now × AsLong s.now out.old }
    ensures { (c : Component) → s.now ≡ flat c → Gave (child_from c from) result out.new }
{
    let pairs = count(s) - 1;
    let lead = leading(s);
    if pairs < from {
        return scan_right(s, from - pairs, pairs, lead, out);
    }
    if scan_left(s, from, pairs, lead, out) {
        return true;
    }
    scan_right(s, 0, pairs, lead, out)
}
