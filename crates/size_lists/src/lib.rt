// The list of sizes of a system in memory: the first one of n points, the next one, and the components that fill it.
#![tactic(auto)]

ghost use Rattle.std.specs.Prelude.{◌≡◌, length, take};
ghost use Rattle.std.proofs.Math.Option.{some};
ghost use Rattle.lists.specs.Select.{first, gather};
ghost use Rattle.patterns.specs.System.{System, codes};
ghost use Rattle.system_theory.specs.Step.{next_sizes};
ghost use Rattle.memory.specs.Memory.{Holds};
ghost use Rattle.size_lists.specs.SizesHeld.{sum, SizesIn, NextIn, fill_trees};

// The first system: as many fixed points as the slices have places.
pub fn first_system(sizes: &mut [u8], trees: &mut [u8])
    requires { length sizes.old ≡ length trees.old }
    ensures { (S : System) → first (codes (length sizes.old)) ≡ some S
        → Holds S sizes.new trees.new }
{
    sizes.fill(1);
    trees.fill(1);
}

// The next size list in place of the one in the first m places: the last two sizes a and b give way to the least list of a + b from a + 1 on.
// The number of sizes then, where there is a next size list.
pub fn next_sizes(sizes: &mut [u8], m: usize) -> Option<usize>
    requires { SizesIn sizes.old m }
    ensures { NextIn (next_sizes (take m sizes.old)) result sizes.new }
{
    if m < 2 {
        return None;
    }
    let mut i = m - 2;
    let a = sizes[i] as usize;
    let b = sizes[i + 1] as usize;
    let least = a + 1;
    let mut left = a + b;
    // no `for`: what is left, not a count, says how many sizes the list has
    while least + least <= left {
        sizes[i] = least as u8;
        left -= least;
        i += 1;
    }
    sizes[i] = left as u8;
    Some(i + 1)
}

// One component to the right of `d`: `d` again where it has as many points, else the cycle.
fn fill(d: &[u8], out: &mut [u8])
    ensures { out.new ≡ fill_trees d.now (length out.old) }
{
    if d.len() == out.len() {
        out.copy_from_slice(d);
    } else {
        out.fill(1);
    }
}

// The components with these sizes, from `d` on: `d` again where the size is that of `d`, else the cycle.
pub fn fill_right(d: &[u8], sizes: &[u8], trees: &mut [u8])
    requires { sum sizes.now ≡ length trees.old }
    ensures { trees.new ≡ gather (fill_trees d.now) sizes.now }
{
    let mut at = 0;
    for size in sizes {
        let end = at + *size as usize;
        fill(d, &mut trees[at..end]);
        at = end;
    }
}
