// One component, flat: a slice of as many bytes as it has points, the codes of its trees one after another.
#![tactic(auto)]

ghost use Rattle.std.specs.Prelude.{◌≡◌, Some};
ghost use Rattle.patterns.specs.Component.{Component, flat, valid_component};
ghost use Rattle.memory.specs.Memory.{Held};
ghost use Rattle.components.specs.RotationTest.{rotation_test};
ghost use Rattle.components.specs.Climbs.{HeldBeside, HeldMerge, Climbed};

use lists::{compare, exchange};
use std::cmp::Ordering;
use trees::{at_most, count, last_branch, leading, valid_trees};

// How many rotations equal the component [document 02, paper 6: turns], where none is less [document 004, Definition 2]. One pass: the trees so far are a
// prenecklace, that is, a beginning of a power of the trees in their first `period` points. The next tree is held against the tree one period before: if it
// is less, a rotation is less; if it is greater, all trees so far are the period. At the end the power is whole, and then the component equals itself turned
// by any number of periods; or it is cut off, and then the rotation by one period is less.
pub fn least_rotation(s: &[u8]) -> Option<usize>
    requires { Held s.now }
    ensures { (c : Component) → s.now ≡ flat c → result ≡ rotation_test c }
{
    if s.is_empty() {
        return Some(0);
    }
    let mut period = s[0] as usize;
    // Points that come first are all the same: they are counted and not walked, since most cycles begin with many.
    let mut at = period.max(leading(s));
    // Kept: nothing is counted, two places go on by the sizes of their trees, one a period behind the other.
    while at < s.len() {
        let back = at - period;
        let old = back + s[back] as usize;
        let end = at + s[at] as usize;
        match compare(&s[back..old], &s[at..end]) {
            Ordering::Greater => return None,
            Ordering::Less => period = end,
            Ordering::Equal => {}
        }
        at = end;
    }
    let turns = s.len() / period;
    (s.len() % period == 0).then_some(turns)
}

// The component is a valid code [document 004, Definition 2].
pub fn valid_component(s: &[u8]) -> bool
    requires { Held s.now }
    ensures { (c : Component) → s.now ≡ flat c → result ≡ valid_component c }
{
    !s.is_empty() && valid_trees(s) && least_rotation(s).is_some()
}

// The component becomes its parent [document 004, Lemma 8]: behind `h` points stands the first tree of more points, and its two parts take its place, the lesser
// first. Answers the place of the component, which has so many trees, among its parent's candidates. Whoever climbs on need not count points and trees again.
pub fn unmerge_at(s: &mut [u8], h: usize, trees: usize) -> usize
    requires { HeldMerge s.old h trees }
    ensures { (c : Component) → s.old ≡ flat c → Climbed c (Some result) s.new }
{
    let e = h + s[h] as usize;
    let l = h + last_branch(&s[h..e]);
    s[h] = s[h] - s[l];
    if at_most(&s[h..l], &s[l..e]) {
        return h;
    }
    exchange(s, h, l, e);
    trees + h
}

// The component becomes its parent, where it has one. Answers its place among its parent's candidates.
pub fn unmerge(s: &mut [u8]) -> Option<usize>
    requires { Held s.old }
    ensures { (c : Component) → s.old ≡ flat c → Climbed c result s.new }
{
    let h = leading(s);
    if s.len() <= h {
        return None;
    }
    let trees = count(s);
    Some(unmerge_at(s, h, trees))
}

// The parent of a component, in `out`.
pub fn parent(s: &[u8], out: &mut [u8]) -> Option<usize>
    requires { HeldBeside s.now out.old }
    ensures { (c : Component) → s.now ≡ flat c → Climbed c result out.new }
{
    out.copy_from_slice(s);
    unmerge(out)
}
