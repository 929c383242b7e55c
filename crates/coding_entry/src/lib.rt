// The public entry that gives the code of a map.
#![tactic(auto)]

ghost use Rattle.patterns.specs.Written.{written as written_of};
ghost use Rattle.patterns.specs.Table.{system_of_table};
ghost use Rattle.patterns.specs.Entry.{Replied, Outcome.gives, code_of_map};
ghost use Rattle.patterns.specs.Replies.{answer_of};

use coding::coded;
use patterns::Reply;
use tables::Table;
use writing::StoredSystem;

// Puts the code of a table into `out`.
fn put_code(table: Table, out: &mut [u8]) -> Reply
    ensures { Replied (gives (written_of (system_of_table table.entry.images.now))) out.old (answer_of result) out.new }
{
    let system = coded(table);
    StoredSystem {
        sizes: system.sizes(),
        trees: system.trees(),
    }
    .put(out)
}

// Writes the code of the map `table`.
pub fn code_of_map(table: &[u8], out: &mut [u8]) -> Reply
    ensures { Replied (code_of_map table.now) out.old (answer_of result) out.new }
{
    let table = Table::check(table)?;
    put_code(table, out)
}
