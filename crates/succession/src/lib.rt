// What follows a component in generation order, and what stands before it [document 004, Theorem 13]. The two are one step in two directions: backward the children come
// from the last to the first, and the depths change parts. A component is flat: a byte for each point.
#![tactic(auto)]

ghost use Rattle.std.specs.Prelude.{◌≡◌};
ghost use Rattle.patterns.specs.Component.{Component, flat};
ghost use Rattle.component_theory.specs.LocalStep.{early};
ghost use Rattle.component_theory.specs.Successor.{beyond_early, beyond_late, neighbour, successor as successor_of, predecessor as predecessor_of};
ghost use Rattle.children.specs.Candidates.{Gave};
ghost use Rattle.scanning.specs.HeldNodes.{Node, AsLong};
ghost use Rattle.generation.specs.Siblings.{is_forward};

use generation::{Direction, Sibling, first_child, next_sibling, opening};
use trees::count;

// Whether a component comes before its descendants: forward at even depth, backward at odd depth.
fn is_early(direction: Direction, s: &[u8]) -> bool
    requires { Node s.now }
    ensures { (c : Component) → s.now ≡ flat c → result ≡ early (is_forward direction) c }
{
    let depth = s.len() - count(s);
    match direction {
        Direction::Forward => depth % 2 == 0,
        Direction::Backward => depth % 2 != 0,
    }
}

// What follows a component that comes before its descendants, and these.
fn after_early(direction: Direction, s: &[u8], up: &mut [u8], out: &mut [u8]) -> bool
    requires { Node s.now × AsLong s.now out.old × AsLong s.now up.old }
    ensures { (c : Component) → s.now ≡ flat c → Gave (beyond_early (is_forward direction) c) result out.new }
{
    match next_sibling(direction, s, up, out) {
        Sibling::Root => false,
        Sibling::Next => true,
        Sibling::Last => {
            out.copy_from_slice(up);
            true
        }
    }
}

// The same where it comes after them.
fn after_late(
    direction: Direction,
    s: &[u8],
    up: &mut [u8],
    side: &mut [u8],
    out: &mut [u8],
) -> bool
    requires { Node s.now × AsLong s.now out.old × AsLong s.now up.old × AsLong s.now side.old }
    ensures { (c : Component) → s.now ≡ flat c → Gave (beyond_late (is_forward direction) c) result out.new }
{
    match next_sibling(direction, s, up, side) {
        Sibling::Root => false,
        Sibling::Next => {
            opening(direction, side, out);
            true
        }
        Sibling::Last => after_early(direction, up, side, out),
    }
}

// What follows a component in a direction.
fn step(direction: Direction, s: &[u8], up: &mut [u8], side: &mut [u8], out: &mut [u8]) -> bool
    requires { Node s.now × AsLong s.now out.old × AsLong s.now up.old × AsLong s.now side.old }
    ensures { (c : Component) → s.now ≡ flat c → Gave (neighbour (is_forward direction) c) result out.new }
{
    if !is_early(direction, s) {
        return after_late(direction, s, up, side, out);
    }
    if first_child(direction, s, side) {
        opening(direction, side, out);
        return true;
    }
    after_early(direction, s, up, out)
}

// What follows a component in generation order.
pub fn successor(s: &[u8], up: &mut [u8], side: &mut [u8], out: &mut [u8]) -> bool
    requires { Node s.now × AsLong s.now out.old × AsLong s.now up.old × AsLong s.now side.old }
    ensures { (c : Component) → s.now ≡ flat c → Gave (successor_of c) result out.new }
{
    step(Direction::Forward, s, up, side, out)
}

// What stands before a component in generation order.
pub fn predecessor(s: &[u8], up: &mut [u8], side: &mut [u8], out: &mut [u8]) -> bool
    requires { Node s.now × AsLong s.now out.old × AsLong s.now up.old × AsLong s.now side.old }
    ensures { (c : Component) → s.now ≡ flat c → Gave (predecessor_of c) result out.new }
{
    step(Direction::Backward, s, up, side, out)
}
