// Reading trees and components of a written code [document 01, "Refusing"]: their shape, left to right, the first fault deciding. The
// numbers of a component, which are bytes then, go into memory as they are.
#![tactic(auto)]

ghost use Rattle.std.specs.Prelude.{◌≡◌, ℕ, ◌+◌, ◌<◌, ◌≤◌, length, drop, get_or};
ghost use Rattle.patterns.specs.Reading.{read_tree, read_branches, read_trees};
ghost use Rattle.written.specs.Putting.{placed};
ghost use Rattle.form_theory.specs.ReadComponent.{read_component};
ghost use Rattle.tree_reading.specs.Walking.{walked, walked_all};

use patterns::Refusal;

// The place after what was read, or the cause of a refusal.
pub type Read = Result<usize, Refusal>;

// A tree of at most `limit` points, from place `at` on. A tree of one point has no branches to read.
#[cycle(read_branches_read_tree)]
pub fn read_tree(s: &[u16], at: usize, limit: usize) -> Read
    ensures { (f : ℕ) → limit + limit < f → result ≡ walked at (read_tree f limit (drop at s.now)) }
{
    if s.len() <= at {
        return Err(Refusal::Truncated);
    }
    let x = usize::from(s[at]);
    if x == 0 {
        return Err(Refusal::Sizes);
    }
    if limit < x {
        return Err(Refusal::Sizes);
    }
    if x == 1 {
        return Ok(at + 1);
    }
    read_branches(s, at + 1, x - 1)
}

// Branches of `left` points in all, from place `at` on.
#[cycle(read_branches_read_tree)]
pub fn read_branches(s: &[u16], at: usize, left: usize) -> Read
    ensures { (f : ℕ) → left + left + 1 < f → result ≡ walked_all at (read_branches f left (drop at s.now)) }
{
    if left == 0 {
        return Ok(at);
    }
    let next = read_tree(s, at, left)?;
    read_branches(s, next, left - (next - at))
}

// `k` trees of at most `left` points in all, from place `at` on.
pub fn read_trees(s: &[u16], at: usize, k: usize, left: usize) -> Read
    ensures { result ≡ walked_all at (read_trees k left (drop at s.now)) }
{
    let mut next = at;
    let mut rest = left;
    for _i in 0..k {
        let end = read_tree(s, next, rest)?;
        rest -= end - next;
        next = end;
    }
    Ok(next)
}

// A component of at most `left` points, from place `at` on: the number of its trees, then the trees.
pub fn read_component(s: &[u16], at: usize, left: usize) -> Read
    ensures { result ≡ walked_all (at + 1) (read_component left (drop at s.now)) }
{
    if s.len() <= at {
        return Err(Refusal::Truncated);
    }
    let k = usize::from(s[at]);
    if k == 0 {
        return Err(Refusal::Sizes);
    }
    if left < k {
        return Err(Refusal::Sizes);
    }
    read_trees(s, at + 1, k, left)
}

// Writes the numbers `s`, each of them a byte, into `out` from place `at` on.
pub fn narrow(s: &[u16], out: &mut [u8], at: usize)
    requires { (at + length s.now ≤ length out.old) × ((i : ℕ) → get_or s.now i 0 < 256) }
    ensures { out.new ≡ placed at s.now out.old }
{
    for (i, x) in s.iter().enumerate() {
        out[at + i] = *x as u8;
    }
}
