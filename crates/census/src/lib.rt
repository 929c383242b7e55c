// The rows of the census of a map in running code [document 01, "Refusing", last but one paragraph]: which cycle lengths occur and how often.
#![tactic(auto)]

mod columns;

ghost use Rattle.std.specs.Prelude.{◌≡◌, ◌++◌, map, ◌<◌, ◌≤◌, length, take, drop};
ghost use Rattle.cycles.specs.Marks.{Marked};
ghost use Rattle.census.specs.Counts.{ClearAsked, CycleCleared, Blank, Counts};
ghost use Rattle.census.specs.Rows.{RowsRoom, Listed, RowsOf};
ghost use Rattle.patterns.specs.Census.{rows_of};
ghost use Rattle.patterns.specs.Replies.{row_of};

pub use columns::Rows;
use patterns::{Row, points_room};
use tables::Table;

// Walks round the cycle of `x`, clears the marks on it, and answers its length.
fn clear_cycle(table: Table, marks: &mut [u8], x: usize) -> usize
    requires { ClearAsked table.images.now marks.old x }
    ensures { CycleCleared table.entry.images.now marks.old x result marks.new }
{
    let f = table.images;
    marks[x] = 0;
    let mut length = 1;
    let mut y = f[x] as usize;
    // No `for`: the table tells where the walk goes on, and x where it ends.
    while y != x {
        marks[y] = 0;
        y = f[y] as usize;
        length += 1;
    }
    length
}

// Counts the cycles by their length, each where its least point comes, the first that is marked: `counts[l]` for l from 1 on.
fn count_cycles(table: Table, marks: &mut [u8], counts: &mut [u8])
    requires { Blank table.images.now marks.old counts.old }
    ensures { Counts table.entry.images.now counts.new }
{
    for x in 0..table.images.len() {
        if marks[x] != 0 {
            let l = clear_cycle(table, marks, x);
            counts[l] += 1;
        }
    }
}

// The rows of a list that has the number of cycles of each length, by rising length.
fn list_rows(tallies: &[u8], lengths: &mut [u8], counts: &mut [u8]) -> usize
    requires { RowsRoom tallies.now lengths.old counts.old }
    ensures { Listed tallies.now lengths.old counts.old result lengths.new counts.new }
{
    let mut rows = 0;
    for l in 1..tallies.len() {
        let count = tallies[l];
        if count != 0 {
            lengths[rows] = l as u8;
            counts[rows] = count;
            rows += 1;
        }
    }
    rows
}

// The rows of a table with its points on cycles marked; `tallies` has a place for the count of each length. The marks are used up.
fn rows_of(table: Table, marks: &mut [u8], tallies: &mut [u8]) -> Rows
    requires { Blank table.images.now marks.old tallies.old }
    ensures { RowsOf table.entry.images.now result }
{
    let mut lengths = [0u8; 19];
    let mut counts = [0u8; 19];
    count_cycles(table, marks, tallies);
    let rows = list_rows(tallies, &mut lengths, &mut counts);
    Rows {
        lengths,
        counts,
        rows,
    }
}

// The rows of a table with its points on cycles marked.
fn marked_rows(table: Table, marks: &mut [u8]) -> Rows
    requires { Marked table.images.now marks.old }
    ensures { RowsOf table.entry.images.now result }
{
    let n = table.images.len();
    let mut tallies = [0u8; 201];
    rows_of(table, marks, &mut tallies[..n + 1])
}

// The rows of a table.
pub fn cycle_rows(table: Table) -> Rows
    ensures { RowsOf table.entry.images.now result }
{
    let n = table.images.len();
    let mut marks = points_room();
    cycles::mark_cycles(table, &mut marks[..n]);
    marked_rows(table, &mut marks[..n])
}

// Fills the first `n` places of `out` with the first `n` rows of a census; the places behind keep what they held.
pub fn fill(out: &mut [Row], rows: Rows, n: usize)
    requires { (n ≤ 19) × (n ≤ length out.old) }
    ensures { map row_of out.new ≡ rows_of (take n rows.lengths) (take n rows.counts) ++ drop n (map row_of out.old) }
{
    for i in 0..n {
        out[i] = rows.row(i);
    }
}
