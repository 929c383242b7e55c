// Comparing two lists of bytes and whether they are the same, and exchanging two neighbouring blocks of a lent slice.
#![tactic(auto)]

ghost use Rattle.std.specs.Prelude.{◌≡◌, length};
ghost use Prim.Native.Nat.{suc, ◌≤◌, ◌<◌, compare as compare_numbers};
ghost use Rattle.lists.specs.Order.{lex, same};
ghost use Rattle.lists.specs.Blocks.{ordering_of, exchanged, reversed_between};

use std::cmp::Ordering;

// Lexicographic comparison: the first difference decides, and a proper beginning comes first.
pub fn compare(s: &[u8], t: &[u8]) -> Ordering
    ensures { ordering_of result ≡ lex compare_numbers s.now t.now }
{
    // Pair by pair, and not the library's `cmp`, which goes by groups of bytes: most lists here have a byte or two, and are compared in less time so.
    for (x, y) in s.iter().zip(t) {
        if x != y {
            return x.cmp(y);
        }
    }
    s.len().cmp(&t.len())
}

// Both slices hold the same bytes.
pub fn equal(s: &[u8], t: &[u8]) -> bool
    ensures { result ≡ same (lex compare_numbers) s.now t.now }
{
    s == t
}

// The byte at `b` goes to `a`, and those from there to `b` move up by one.
fn shift(s: &mut [u8], a: usize, b: usize)
    requires { (a ≤ b) × (b < length s.old) }
    ensures { s.new ≡ exchanged a b (suc b) s.old }
{
    let x = s[b];
    s.copy_within(a..b, a + 1);
    s[a] = x;
}

// The entries of `s` from `a` up to `b` in reverse order; nothing else moves.
fn reverse(s: &mut [u8], a: usize, b: usize)
    requires { (a ≤ b) × (b ≤ length s.old) }
    ensures { s.new ≡ reversed_between a b s.old }
{
    s[a..b].reverse();
}

// The blocks a..b and b..e of `s` change places; nothing else moves. An empty first block costs nothing, and a second block of one byte, as of a tree of
// one point, is moved past the first in one pass: both are what most calls meet. The library's `rotate_left`, which lends itself room for the shorter block
// by calls out of line, takes three times as long on blocks of a few bytes.
pub fn exchange(s: &mut [u8], a: usize, b: usize, e: usize)
    requires { (a ≤ b) × (b ≤ e) × (e ≤ length s.old) }
    ensures { s.new ≡ exchanged a b e s.old }
{
    if a == b {
        return;
    }
    if e - b == 1 {
        return shift(s, a, b);
    }
    reverse(s, a, b);
    reverse(s, b, e);
    reverse(s, a, e);
}
