// The public entries that write the map of a code as a digraph6 line, and read such a line as a code [document 02, paper 10].
#![tactic(auto)]

ghost use Rattle.patterns.specs.Digraph6.{digraph6_of_code, code_of_digraph6};
ghost use Rattle.patterns.specs.Entry.{Replied};
ghost use Rattle.patterns.specs.Replies.{answer_of};

use coding_entry::code_of_map;
use decoding_entry::map_of_code;
use digraph6_reading::read_line;
use digraph6_writing::put_line;
use patterns::{Reply, points_room};
use tables::Table;

// Writes the line of the map of `code`.
pub fn digraph6_of_code(code: &[u8], out: &mut [u8]) -> Reply
    ensures { Replied (digraph6_of_code code.now) out.old (answer_of result) out.new }
{
    let mut room = points_room();
    let n = map_of_code(code, &mut room)?;
    let table = Table { images: &room[..n] };
    put_line(table, out)
}

// Writes the code of the map that `line` shows.
pub fn code_of_digraph6(line: &[u8], out: &mut [u8]) -> Reply
    ensures { Replied (code_of_digraph6 line.now) out.old (answer_of result) out.new }
{
    let mut table = points_room();
    let n = read_line(line, &mut table)?;
    code_of_map(&table[..n], out)
}
