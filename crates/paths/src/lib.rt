// The path of a component, and which of two components comes first.
#![tactic(auto)]

ghost use Rattle.std.specs.Prelude.{◌≡◌, not, true, length};
ghost use Prim.Native.Nat.{compare as compare_numbers};
ghost use Rattle.lists.specs.Blocks.{ordering_of};
ghost use Rattle.lists.specs.Order.{lex_by};
ghost use Rattle.patterns.specs.Component.{Component, flat};
ghost use Rattle.patterns.specs.System.{compare_generated};
ghost use Rattle.component_theory.specs.Path.{path};
ghost use Rattle.paths.specs.HeldPaths.{HeldKeys, HeldTrace, HeldPair, Traced};

use components::unmerge_at;
use lists::equal;
use patterns::points_room;
use std::cmp::Ordering;
use trees::{count, leading};

// The alternating order of paths: the first difference decides; where there is none, the shorter path comes first if its length is even, and last
// if it is odd.
pub fn compare_paths(a: &[u16], b: &[u16]) -> Ordering
    ensures { ordering_of result ≡ lex_by compare_numbers not true a.now b.now }
{
    for (x, y) in a.iter().zip(b) {
        if x != y {
            return x.cmp(y);
        }
    }
    let by_length = a.len().cmp(&b.len());
    if a.len().min(b.len()) % 2 == 0 {
        return by_length;
    }
    by_length.reverse()
}

// The component climbs to the cycle, and its path is written into the last places of `keys`. Answers where the path begins. A step up keeps the leading
// points and gives one tree more, so neither is counted anew.
pub fn path_into(s: &mut [u8], keys: &mut [u16]) -> usize
    requires { HeldKeys s.old keys.old }
    ensures { (c : Component) → s.old ≡ flat c → Traced c result keys.new }
{
    let mut trees = count(s);
    let mut lead = 0;
    for at in (0..keys.len()).rev() {
        lead += leading(&s[lead..]);
        if s.len() <= lead {
            return at + 1;
        }
        let key = unmerge_at(s, lead, trees);
        keys[at] = key as u16;
        trees += 1;
    }
    0
}

// The path of a component that stays as it is.
pub fn path_of(s: &[u8], work: &mut [u8], keys: &mut [u16]) -> usize
    requires { HeldTrace s.now work.old keys.old }
    ensures { (c : Component) → s.now ≡ flat c → Traced c result keys.new }
{
    work.copy_from_slice(s);
    path_into(work, keys)
}

// Which of two components of equally many points has the path that comes first.
fn compare_by_paths(a: &[u8], b: &[u8]) -> Ordering
    requires { HeldPair a.now b.now × (length b.now ≡ length a.now) }
    ensures { (c d : Component) → a.now ≡ flat c → b.now ≡ flat d
        → ordering_of result ≡ lex_by compare_numbers not true (path c) (path d) }
{
    // Equal components, of which a system can have many, need no paths.
    if equal(a, b) {
        return Ordering::Equal;
    }
    let n = a.len();
    let mut work = points_room();
    let mut first = [0u16; 200];
    let mut second = [0u16; 200];
    let i = path_of(a, &mut work[..n], &mut first[..n]);
    let j = path_of(b, &mut work[..n], &mut second[..n]);
    compare_paths(&first[i..n], &second[j..n])
}

// Which of two components comes first: by number of points, and among equal numbers by generation order [document 004, Definition 14].
pub fn compare_generated(a: &[u8], b: &[u8]) -> Ordering
    requires { HeldPair a.now b.now }
    ensures { (c d : Component) → a.now ≡ flat c → b.now ≡ flat d → ordering_of result ≡ compare_generated c d }
{
    a.len().cmp(&b.len()).then_with(|| compare_by_paths(a, b))
}
