// Where the least rotation of a component begins.
#![tactic(auto)]

ghost use Rattle.std.specs.Prelude.{◌≡◌, ◌++◌, length, take, drop};
ghost use Prim.Native.Nat.{◌≤◌, compare as compare_numbers};
ghost use Rattle.lists.specs.Order.{lex, at_most};
ghost use Rattle.patterns.specs.Component.{Component, flat};
ghost use Rattle.memory.specs.Memory.{Held};
ghost use Rattle.rotation.specs.LeastStart.{LeastStart};

use components::least_rotation;
use lists::compare;

// `s` turned to begin at `a` is not greater than `s` turned to begin at `b`.
fn at_most_between(s: &[u8], a: usize, b: usize) -> bool
    requires { (a ≤ b) × (b ≤ length s.now) }
    ensures { result ≡ at_most (lex compare_numbers) (drop a s.now ++ take a s.now) (drop b s.now ++ take b s.now) }
{
    let n = s.len();
    let d = b - a;
    let e = n - d;
    compare(&s[a..e], &s[b..n])
        .then_with(|| compare(&s[e..n], &s[..d]))
        .then_with(|| compare(&s[..a], &s[d..b]))
        .is_le()
}

// Where the least rotation of the component begins, of all its beginnings.
fn least_found(s: &[u8]) -> usize
    requires { Held s.now }
    ensures { (c : Component) → s.now ≡ flat c → LeastStart c result }
{
    let mut best = 0;
    let mut p = 0;
    // Kept: nothing is counted, the size of a tree leads on to the next, and the place of a tree is the answer.
    while p < s.len() {
        if !at_most_between(s, best, p) {
            best = p;
        }
        p += s[p] as usize;
    }
    best
}

// Where the least rotation of the component begins. One pass where the component is least already.
pub fn least_start(s: &[u8]) -> usize
    requires { Held s.now }
    ensures { (c : Component) → s.now ≡ flat c → LeastStart c result }
{
    match least_rotation(s) {
        Some(_) => 0,
        None => least_found(s),
    }
}
