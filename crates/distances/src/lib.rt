// How far the points of a table are from their cycles. A list notes one more than the distance of a point, or 0 where it is not known yet; the marks of the
// points on cycles are such a list. So every point is walked over at most twice.
#![tactic(auto)]

ghost use Rattle.std.specs.Prelude.{◌≡◌, ◌<◌, length};
ghost use Rattle.patterns.specs.Table.{image};
ghost use Rattle.patterns.specs.Census.{height as height_of};
ghost use Rattle.cycles.specs.Marks.{Marked};
ghost use Rattle.distances.specs.Noted.{distance_in, Noted, WayNoted};

use patterns::points_room;
use tables::Table;

// The steps from `x` to its cycle: those to the first point whose distance is noted, and that distance.
fn distance(table: Table, noted: &[u8], x: usize) -> usize
    requires known { Noted table.images.now noted.now }
    requires here { x < length table.images.now }
    ensures { result ≡ distance_in table.entry.images.now x }
{
    let f = table.images;
    let mut steps = 0;
    let mut y = x;
    // No `for`: the table tells where the walk goes on, and the notes where it ends.
    while noted[y] == 0 {
        y = f[y] as usize;
        steps += 1;
    }
    let rest = noted[y] as usize - 1;
    steps + rest
}

// Notes the distance of `x` and of the points after it, up to the first whose distance is noted already.
fn note_way(table: Table, noted: &mut [u8], x: usize, distance: usize)
    requires known { Noted table.images.now noted.old }
    requires here { x < length table.images.now }
    requires told { distance ≡ distance_in table.images.now x }
    ensures { WayNoted table.entry.images.now noted.old distance noted.new }
{
    let f = table.images;
    let mut y = x;
    let mut note = distance + 1;
    // No `for`, as above.
    while noted[y] == 0 {
        noted[y] = note as u8;
        y = f[y] as usize;
        note -= 1;
    }
}

// The greatest distance of a point from its cycle; the marks become notes. A point that is noted already is no further than one before.
fn marked_height(table: Table, marks: &mut [u8]) -> usize
    requires { Marked table.images.now marks.old }
    ensures { result ≡ height_of (length table.entry.images.now) (image table.entry.images.now) }
{
    let mut most = 0;
    for x in 0..table.images.len() {
        if marks[x] == 0 {
            let steps = distance(table, marks, x);
            note_way(table, marks, x, steps);
            most = most.max(steps);
        }
    }
    most
}

// The greatest distance of a point of a table from its cycle.
pub fn height(table: Table) -> usize
    ensures { result ≡ height_of (length table.entry.images.now) (image table.entry.images.now) }
{
    let n = table.images.len();
    let mut marks = points_room();
    cycles::mark_cycles(table, &mut marks[..n]);
    marked_height(table, &mut marks[..n])
}
