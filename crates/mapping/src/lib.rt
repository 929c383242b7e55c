// The map of a system: its points are 0, 1 and on, in the order in which the codes of its trees have them.
#![tactic(auto)]

ghost use Rattle.std.specs.Prelude.{◌≡◌, cond, ◌+◌, ◌<◌, ltb};
ghost use Rattle.patterns.specs.Tree.{Tree, code};
ghost use Rattle.patterns.specs.Component.{Component, flat, points as points_of};
ghost use Rattle.patterns.specs.System.{System};
ghost use Rattle.patterns.specs.MapOf.{inner_images, cycle_images, map_of};
ghost use Rattle.written.specs.Putting.{placed};
ghost use Rattle.memory.specs.Memory.{Holds, Stands};
ghost use Rattle.mapping.specs.Images.{TreeStands, ComponentStands, MapAsked};

// Writes the images of the points of the tree at `p` but its root: a branch goes to the point that it is a branch of.
fn tree_images(trees: &[u8], p: usize, out: &mut [u8])
    requires { TreeStands trees.now p out.old }
    ensures { (t : Tree) → Stands (code t) p trees.now → out.new ≡ placed (p + 1) (inner_images p t) out.old }
{
    let end = p + trees[p] as usize;
    let mut q = p + 1;
    // The place moves by the size of a branch: no index is counted.
    while q < end {
        out[q] = p as u8;
        tree_images(trees, q, out);
        q += trees[q] as usize;
    }
}

// The image of a root: the next root, and after the last one the first.
fn root_image(start: usize, end: usize, q: usize) -> usize
    ensures { result ≡ cond (ltb q end) q start }
{
    if q < end { q } else { start }
}

// Writes the images of the points of the component from `start` to `end`.
fn cycle_images(trees: &[u8], start: usize, end: usize, out: &mut [u8])
    requires { ComponentStands trees.now start end out.old }
    ensures { (c : Component) → Stands (flat c) start trees.now → end ≡ start + points_of c
        → out.new ≡ placed start (cycle_images start start c) out.old }
{
    let mut p = start;
    // The place moves by the size of a tree: no index is counted.
    while p < end {
        let q = p + trees[p] as usize;
        out[p] = root_image(start, end, q) as u8;
        tree_images(trees, p, out);
        p = q;
    }
}

// Writes the map of the system.
pub fn map_of(sizes: &[u8], trees: &[u8], out: &mut [u8])
    requires { MapAsked sizes.now trees.now out.old }
    ensures { (S : System) → Holds S sizes.now trees.now → out.new ≡ map_of S }
{
    let mut start = 0;
    for size in sizes {
        let end = start + *size as usize;
        cycle_images(trees, start, end, out);
        start = end;
    }
}
