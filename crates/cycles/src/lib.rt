// Tables: which points are on cycles.
#![tactic(auto)]

ghost use Rattle.std.specs.Prelude.{◌≡◌, ◌≤◌, length};
ghost use Rattle.cycles.specs.Marks.{Marked};
ghost use Rattle.cycles.specs.Queue.{Queue};
ghost use Rattle.cycles.specs.Pruning.{InDegrees, Pruned, LeftMarked};

use patterns::points_room;
use tables::Table;

// Counts how many points go to each point.
fn count_in_degrees(table: Table, degrees: &mut [u8])
    requires { length degrees.old ≡ length table.images.now }
    ensures { InDegrees table.entry.images.now degrees.new }
{
    let f = table.images;
    degrees.fill(0);
    for y in f {
        degrees[usize::from(*y)] += 1;
    }
}

// Lists the points of degree 0 in `queue`, and answers how many. A point is written in any case, and stays if it counts.
fn list_leaves(degrees: &[u8], queue: &mut [u8]) -> usize
    requires { (length degrees.now ≤ 200) × (length queue.old ≡ length degrees.now) }
    ensures { Queue degrees.now queue.new result }
{
    let mut len = 0;
    for (x, degree) in degrees.iter().enumerate() {
        queue[len] = x as u8;
        if *degree == 0 {
            len += 1;
        }
    }
    len
}

// Takes off the points of the queue one after another. The point that such a point goes to has one less, and joins the queue where that is 0.
fn take_off(f: &[u8], degrees: &mut [u8], queue: &mut [u8], leaves: usize)
    requires { InDegrees f.now degrees.old × Queue degrees.old queue.old leaves }
    ensures { Pruned f.now degrees.new }
{
    let mut len = leaves;
    let mut i = 0;
    // No `for`: the queue grows while it is read, so that a range to its end would still have to ask at each turn where the end is by now.
    while i < len {
        let x = queue[i] as usize;
        let y = f[x] as usize;
        degrees[y] -= 1;
        queue[len] = y as u8;
        if degrees[y] == 0 {
            len += 1;
        }
        i += 1;
    }
}

// Takes off all that is not on a cycle; `queue` has a place for each point.
fn prune(f: &[u8], degrees: &mut [u8], queue: &mut [u8])
    requires { InDegrees f.now degrees.old × (length queue.old ≡ length f.now) }
    ensures { Pruned f.now degrees.new }
{
    let leaves = list_leaves(degrees, queue);
    take_off(f, degrees, queue, leaves);
}

// Turns degrees into marks: 0 for what is taken off, 1 for what is left. Both ways write, so that they differ in a value only.
fn mark_left(marks: &mut [u8])
    ensures { LeftMarked marks.old marks.new }
{
    for mark in marks.iter_mut() {
        *mark = u8::from(*mark != 0);
    }
}

// `marks` tells the points on cycles, 1, from the others, 0. While points are taken off it holds the degrees.
pub fn mark_cycles(table: Table, marks: &mut [u8])
    requires { length marks.old ≡ length table.images.now }
    ensures { Marked table.entry.images.now marks.new }
{
    let n = table.images.len();
    let mut queue = points_room();
    count_in_degrees(table, marks);
    prune(table.images, marks, &mut queue[..n]);
    mark_left(marks);
}
