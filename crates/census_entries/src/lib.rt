// The census of a map, in a lent list of rows or in two lent columns, and its parts.
#![tactic(auto)]

ghost use Rattle.std.specs.Prelude.{◌≡◌, map, ◌≤◌, length};
ghost use Rattle.patterns.specs.Entry.{CensusReplied, RowsReplied, ColumnsReplied, height_of};
ghost use Rattle.patterns.specs.Replies.{answer_of, census_answer, row_of};
ghost use Rattle.census_entries.specs.Columns.{ColumnsPut};
ghost use Rattle.census_entries.specs.Decisions.{Chosen};

use census::{Rows, cycle_rows, fill};
use distances::height as height_of;
use patterns::{Census, Refusal, Reply, Row};
use tables::Table;

// The rows of a table, where they have room in `places` places.
fn choose(table: Table, places: usize) -> Result<Rows, Refusal>
    ensures { Chosen table.entry.images.now places result }
{
    let rows = cycle_rows(table);
    if places < rows.rows {
        return Err(Refusal::Room);
    }
    Ok(rows)
}

// Writes the census of the map `table` into the lent list: a row for each cycle length that occurs, rising, with the number of such cycles.
pub fn census(table: &[u8], rows: &mut [Row]) -> Result<Census, Refusal>
    ensures { CensusReplied table.now (map row_of rows.old) (census_answer result) (map row_of rows.new) }
{
    let table = Table::check(table)?;
    let found = choose(table, rows.len())?;
    let n = found.rows;
    fill(rows, found, n);
    let height = height_of(table);
    Ok(Census { rows: n, height })
}

// Puts the rows of a census into the first places of both slices.
fn put_columns(rows: Rows, lengths: &mut [u8], counts: &mut [u8])
    requires { (rows.rows ≤ 19) × (rows.rows ≤ length lengths.old) × (rows.rows ≤ length counts.old) }
    ensures { ColumnsPut rows rows.rows lengths.old counts.old lengths.new counts.new }
{
    let n = rows.rows;
    lengths[..n].copy_from_slice(rows.lengths());
    counts[..n].copy_from_slice(rows.counts());
}

// The rows of a table in two columns; the reply is their number.
fn write_columns(table: Table, lengths: &mut [u8], counts: &mut [u8]) -> Reply
    ensures { ColumnsReplied table.entry.images.now lengths.old counts.old (answer_of result) lengths.new counts.new }
{
    let places = lengths.len().min(counts.len());
    let rows = choose(table, places)?;
    put_columns(rows, lengths, counts);
    Ok(rows.rows)
}

// The same in two columns, for callers that have no list of structs: row i is a cycle length in `lengths` and the number of such cycles beside it in `counts`.
pub fn census_columns(
    table: &[u8],
    lengths: &mut [u8],
    counts: &mut [u8],
) -> Result<Census, Refusal>
    ensures { RowsReplied table.now lengths.old counts.old (census_answer result) lengths.new counts.new }
{
    let table = Table::check(table)?;
    let rows = write_columns(table, lengths, counts)?;
    Ok(Census {
        rows,
        height: height_of(table),
    })
}

// The rows alone in two columns: the reply is their number.
pub fn cycle_columns(table: &[u8], lengths: &mut [u8], counts: &mut [u8]) -> Reply
    ensures { ColumnsReplied table.now lengths.old counts.old (answer_of result) lengths.new counts.new }
{
    let table = Table::check(table)?;
    write_columns(table, lengths, counts)
}

// The greatest distance of a point of the map `table` from its cycle.
pub fn height(table: &[u8]) -> Reply
    ensures { answer_of result ≡ height_of table.now }
{
    let table = Table::check(table)?;
    Ok(height_of(table))
}
