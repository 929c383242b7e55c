// Components of a written code, one after another, read into memory.
#![tactic(auto)]

ghost use Rattle.std.specs.Prelude.{drop};
ghost use Rattle.patterns.specs.Reading.{read_components};
ghost use Rattle.component_reading.specs.ReadComponents.{MemoryRoom, ReadInto};

use patterns::Refusal;
use tree_reading::{Read, narrow, read_component};

// `m` components of `left` points in all, from place `at` on. The points of each go into `sizes`, and the components into `trees`.
pub fn read_components(
    s: &[u16],
    at: usize,
    m: usize,
    left: usize,
    sizes: &mut [u8],
    trees: &mut [u8],
) -> Read
    requires { MemoryRoom m left sizes.old trees.old }
    ensures { ReadInto at (read_components m left (drop at s.now)) result sizes.new trees.new }
{
    let mut next = at;
    let mut rest = left;
    for i in 0..m {
        let end = read_component(s, next, rest)?;
        let points = end - next - 1;
        narrow(&s[next + 1..end], trees, left - rest);
        sizes[i] = points as u8;
        rest -= points;
        next = end;
    }
    if 0 < rest {
        return Err(Refusal::Sizes);
    }
    Ok(next)
}
