// The public entries that accept a written code, and that write the first code of a count of points.
#![tactic(auto)]

ghost use Rattle.std.specs.Prelude.{◌≡◌, ◌≤◌, length};
ghost use Rattle.patterns.specs.Entry.{Replied, accept_of, first_of};
ghost use Rattle.patterns.specs.Replies.{answer_of};

use acceptance::accept_into;
use patterns::{Refusal, Reply, points_room};
use size_lists::first_system;
use writing::StoredSystem;

// Accepts a written code with its number of points, or refuses it.
pub fn accept(code: &[u8]) -> Reply
    ensures { answer_of result ≡ accept_of code.now }
{
    let mut sizes = points_room();
    let mut trees = points_room();
    let accepted = accept_into(code, &mut sizes, &mut trees)?;
    Ok(accepted.points)
}

// Puts the first code of as many points as both slices have places into `out`.
fn put_first(sizes: &mut [u8], trees: &mut [u8], out: &mut [u8]) -> Reply
    requires { (length sizes.old ≡ length trees.old) × (length sizes.old ≤ 200) }
    ensures { Replied (first_of (length sizes.old)) out.old (answer_of result) out.new }
{
    first_system(sizes, trees);
    StoredSystem { sizes, trees }.put(out)
}

// Writes the first code of `n` points.
pub fn first(n: usize, out: &mut [u8]) -> Reply
    ensures { Replied (first_of n) out.old (answer_of result) out.new }
{
    if 200 < n {
        return Err(Refusal::Count);
    }
    let mut sizes = points_room();
    let mut trees = points_room();
    put_first(&mut sizes[..n], &mut trees[..n], out)
}
