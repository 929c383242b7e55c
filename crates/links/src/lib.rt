// Tables with their points on cycles marked: which points hang where, and which points lead a cycle.
#![tactic(auto)]

ghost use Rattle.std.specs.Prelude.{length};
ghost use Rattle.patterns.specs.Table.{image};
ghost use Rattle.links.specs.Links.{LinksAsked, Links};
ghost use Rattle.links.specs.Leads.{Descends, LesserAsked, LeadsAsked, Leads};

use tables::Table;

// Links through the points that hang at a point, each one more than the point that it leads to, or 0 where there is none: `last[x]` leads to the
// greatest that hangs at x, `before[y]` to the next lesser one that hangs where y does.
pub fn link_branches(table: Table, marks: &[u8], last: &mut [u8], before: &mut [u8])
    requires { LinksAsked table.images.now marks.now last.old before.old }
    ensures { Links table.entry.images.now (length table.entry.images.now) last.new before.new }
{
    let f = table.images;
    last.fill(0);
    for (y, image) in f.iter().enumerate() {
        if marks[y] == 0 {
            let x = *image as usize;
            before[y] = last[x];
            last[x] = (y + 1) as u8;
        }
    }
}

// The first point after `x` on its cycle that is not greater than `x`: `lesser` leads past the greater points between.
fn next_lesser(table: Table, lesser: &[u8], x: usize) -> usize
    requires { LesserAsked table.images.now lesser.now x }
    ensures { Descends (image table.entry.images.now) x result }
{
    let f = table.images;
    let mut y = f[x] as usize;
    // Counts nothing: the place to read next is what was read last.
    while x < y {
        y = lesser[y] as usize;
    }
    y
}

// `leads` has x at place x exactly if x is the least point of a cycle.
pub fn lead_cycles(table: Table, marks: &[u8], leads: &mut [u8])
    requires { LeadsAsked table.images.now marks.now leads.old }
    ensures { Leads table.entry.images.now leads.new }
{
    leads.fill(255);
    for x in (0..table.images.len()).rev() {
        if marks[x] != 0 {
            let y = next_lesser(table, leads, x);
            leads[x] = y as u8;
        }
    }
}
