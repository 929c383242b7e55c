// The first child and the next sibling of a component in a direction [document 004, Lemma 12]: forward the children as they are, backward from the last to the
// first. A component is flat: a byte for each point.
#![tactic(auto)]

ghost use Rattle.std.specs.Prelude.{◌≡◌};
ghost use Rattle.patterns.specs.Component.{Component, flat};
ghost use Rattle.component_theory.specs.Successor.{first_child, opening as opening_of};
ghost use Rattle.children.specs.Candidates.{Gave};
ghost use Rattle.scanning.specs.HeldNodes.{Node, AsLong};
ghost use Rattle.generation.specs.Siblings.{is_forward, ChildKey, child_beside, Beside};

use components::parent;
use scanning::{scan, scan_down};
use trees::count;

// The way along the children, and with it along generation order.
#[derive(Clone, Copy, Debug, PartialEq, Eq, Hash)]
pub enum Direction {
    Forward,
    Backward,
}

// Beside a component: it has no parent, it is its parent's last child, or it has a next sibling.
#[derive(Clone, Copy, Debug, PartialEq, Eq, Hash)]
pub enum Sibling {
    Root,
    Last,
    Next,
}

// The first child.
pub fn first_child(direction: Direction, s: &[u8], out: &mut [u8]) -> bool
    requires { Node s.now × AsLong s.now out.old }
    ensures { (c : Component) → s.now ≡ flat c → Gave (first_child (is_forward direction) c) result out.new }
{
    match direction {
        Direction::Forward => scan(s, 0, out),
        Direction::Backward => {
            let pairs = count(s) - 1;
            scan_down(s, pairs + pairs, out)
        }
    }
}

// The child after the one with this key.
fn child_beside(direction: Direction, s: &[u8], key: usize, out: &mut [u8]) -> bool
    requires { Node s.now × AsLong s.now out.old × ChildKey s.now key }
    ensures { (c : Component) → s.now ≡ flat c → Gave (child_beside (is_forward direction) c key) result out.new }
{
    match direction {
        Direction::Forward => scan(s, key + 1, out),
        Direction::Backward => scan_down(s, key, out),
    }
}

// The parent, in `up`, and the next sibling, in `out`.
pub fn next_sibling(direction: Direction, s: &[u8], up: &mut [u8], out: &mut [u8]) -> Sibling
    requires { Node s.now × AsLong s.now out.old × AsLong s.now up.old }
    ensures { (c : Component) → s.now ≡ flat c → Beside (is_forward direction) c result up.new out.new }
{
    let Some(key) = parent(s, up) else {
        return Sibling::Root;
    };
    if child_beside(direction, up, key, out) {
        return Sibling::Next;
    }
    Sibling::Last
}

// The first child, and where there is none the component itself.
pub fn opening(direction: Direction, s: &[u8], out: &mut [u8])
    requires { Node s.now × AsLong s.now out.old }
    ensures { (c : Component) → s.now ≡ flat c → out.new ≡ flat (opening_of (is_forward direction) c) }
{
    if !first_child(direction, s, out) {
        out.copy_from_slice(s);
    }
}
