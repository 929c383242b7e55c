// The public entry that tells the period of a map [document 02, paper 8: round length].
#![tactic(auto)]

ghost use Rattle.std.specs.Prelude.{◌≡◌, ◌≤◌, length};
ghost use Rattle.patterns.specs.Table.{image};
ghost use Rattle.patterns.specs.Replies.{quantity_answer, Answer.length_is};
ghost use Rattle.patterns.specs.Entry.{answer};
ghost use Rattle.patterns.specs.Period.{period as period_in, period_of};
ghost use Rattle.period_entry.specs.SmallTables.{SmallChecked};

use census::cycle_rows;
use multiples::lcm_of_all;
use patterns::Refusal;
use tables::Table;

// The period of a table: the least common multiple of the cycle lengths that occur.
fn period_in(table: Table) -> u64
    requires { length table.images.now ≤ 120 }
    ensures { result ≡ period_in (length table.entry.images.now) (image table.entry.images.now) }
{
    let rows = cycle_rows(table);
    lcm_of_all(rows.lengths())
}

// The table whose images these are, or the cause of its refusal: first its length is checked, which may be 120, then its bytes.
fn check_small(images: &[u8]) -> Result<Table, Refusal>
    ensures { SmallChecked images.now result }
{
    if 200 < images.len() {
        return Err(Refusal::Count);
    }
    if 120 < images.len() {
        return Err(Refusal::TooManyPoints);
    }
    Table::check(images)
}

// The period of the map `table`.
pub fn period(table: &[u8]) -> Result<u64, Refusal>
    ensures { quantity_answer result ≡ answer (period_of table.now) length_is }
{
    let small = check_small(table)?;
    Ok(period_in(small))
}
