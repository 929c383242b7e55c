// The entries of the engine for callers in C: numbers and byte slices in, one signed number out, of a page and of the greatest period two. Of each slice C hands over a pointer and a count.
#![tactic(auto)]

ghost use Rattle.std.specs.Prelude.{◌≡◌};
ghost use Rattle.patterns.specs.Entry.{answer, accept_of, first_of, successor_of, code_of_map, map_of_code, height_of};
ghost use Rattle.patterns.specs.Replies.{Answer.length_is};
ghost use Rattle.patterns.specs.Page.{page_of};
ghost use Rattle.patterns.specs.Predecessor.{predecessor_of};
ghost use Rattle.patterns.specs.Arithmetic.{sum_of_codes, product_of_codes};
ghost use Rattle.patterns.specs.TableCount.{table_count};
ghost use Rattle.patterns.specs.Period.{period_of};
ghost use Rattle.patterns.specs.Digraph6.{digraph6_of_code, code_of_digraph6};
ghost use Rattle.patterns.specs.SignedReplies.{signed_of, Reported, PageReported, GreatestReported, IsomorphismReported, CensusReported, component_start, component_end, component_turns};

use component_parts::stretch_of;
use signed_replies::{
    GreatestReply, PageReply, found_number, greatest_numbers, page_numbers, quantity_number,
    reply_number,
};

// The numbers of "last", "none" and "first".
const LAST: i64 = -100;

const LACKING: i64 = -101;

const FIRST: i64 = -102;

// n, or the refusal of a code.
#[unsafe(no_mangle)]
pub extern "C" fn lethmuok_accept(code: &[u8]) -> i64
    ensures { result ≡ signed_of (accept_of code.now) }
{
    reply_number(engine::accept(code))
}

// Writes the first code of n points.
#[unsafe(no_mangle)]
pub extern "C" fn lethmuok_first(n: usize, out: &mut [u8]) -> i64
    ensures { Reported (first_of n) out.old result out.new }
{
    reply_number(engine::first(n, out))
}

// Writes the code that follows `code` in the list.
#[unsafe(no_mangle)]
pub extern "C" fn lethmuok_successor(code: &[u8], out: &mut [u8]) -> i64
    ensures { Reported (successor_of code.now) out.old result out.new }
{
    found_number(engine::successor(code, out), LAST)
}

// Writes the code that stands before `code` in the list.
#[unsafe(no_mangle)]
pub extern "C" fn lethmuok_predecessor(code: &[u8], out: &mut [u8]) -> i64
    ensures { Reported (predecessor_of code.now) out.old result out.new }
{
    found_number(engine::predecessor(code, out), FIRST)
}

// Writes up to `wanted` codes that follow `code` in the list, one after another.
#[unsafe(no_mangle)]
pub extern "C" fn lethmuok_page(code: &[u8], wanted: usize, out: &mut [u8]) -> PageReply
    ensures { PageReported (page_of wanted code.now) out.old result.codes result.bytes out.new }
{
    page_numbers(engine::page(code, wanted, out))
}

// Writes the code of the map `table`.
#[unsafe(no_mangle)]
pub extern "C" fn lethmuok_code_of_map(table: &[u8], out: &mut [u8]) -> i64
    ensures { Reported (code_of_map table.now) out.old result out.new }
{
    reply_number(engine::code_of_map(table, out))
}

// Writes the map of a code.
#[unsafe(no_mangle)]
pub extern "C" fn lethmuok_map_of_code(code: &[u8], out: &mut [u8]) -> i64
    ensures { Reported (map_of_code code.now) out.old result out.new }
{
    reply_number(engine::map_of_code(code, out))
}

// Writes the code of both systems side by side.
#[unsafe(no_mangle)]
pub extern "C" fn lethmuok_sum(first: &[u8], second: &[u8], out: &mut [u8]) -> i64
    ensures { Reported (sum_of_codes first.now second.now) out.old result out.new }
{
    reply_number(engine::sum(first, second, out))
}

// Writes the code of the system of pairs, each half moving by its own map.
#[unsafe(no_mangle)]
pub extern "C" fn lethmuok_product(first: &[u8], second: &[u8], out: &mut [u8]) -> i64
    ensures { Reported (product_of_codes first.now second.now) out.old result out.new }
{
    reply_number(engine::product(first, second, out))
}

// How many tables have `code` [document 02, paper 7].
#[unsafe(no_mangle)]
pub extern "C" fn lethmuok_table_count(code: &[u8]) -> i64
    ensures { result ≡ signed_of (answer (table_count code.now) length_is) }
{
    quantity_number(engine::table_count(code))
}

// Writes an isomorphism from the map `f` to the map `g`.
#[unsafe(no_mangle)]
pub extern "C" fn lethmuok_isomorphism(f: &[u8], g: &[u8], out: &mut [u8]) -> i64
    ensures { IsomorphismReported f.now g.now out.old result out.new }
{
    found_number(engine::isomorphism(f, g, out), LACKING)
}

// Writes the census of the map `table`: the cycle lengths that occur, rising, and their numbers of cycles beside them.
#[unsafe(no_mangle)]
pub extern "C" fn lethmuok_census(table: &[u8], lengths: &mut [u8], counts: &mut [u8]) -> i64
    ensures { CensusReported table.now lengths.old counts.old result lengths.new counts.new }
{
    reply_number(engine::cycle_columns(table, lengths, counts))
}

// The greatest distance of a point of the map `table` from its cycle.
#[unsafe(no_mangle)]
pub extern "C" fn lethmuok_height(table: &[u8]) -> i64
    ensures { result ≡ signed_of (height_of table.now) }
{
    reply_number(engine::height(table))
}

// The period of the map `table` [document 02, paper 8: round length].
#[unsafe(no_mangle)]
pub extern "C" fn lethmuok_period(table: &[u8]) -> i64
    ensures { result ≡ signed_of (answer (period_of table.now) length_is) }
{
    quantity_number(engine::period(table))
}

// Writes a code of n points with the greatest period [document 02, paper 9: the system that runs longest].
#[unsafe(no_mangle)]
pub extern "C" fn lethmuok_greatest_period(n: usize, out: &mut [u8]) -> GreatestReply
    ensures { GreatestReported n out.old result.length result.period out.new }
{
    greatest_numbers(engine::greatest_period(n, out))
}

// Writes the map of a code as a digraph6 line [document 02, paper 10].
#[unsafe(no_mangle)]
pub extern "C" fn lethmuok_digraph6_of_code(code: &[u8], out: &mut [u8]) -> i64
    ensures { Reported (digraph6_of_code code.now) out.old result out.new }
{
    reply_number(engine::digraph6_of_code(code, out))
}

// Writes the code of the map that a digraph6 line shows.
#[unsafe(no_mangle)]
pub extern "C" fn lethmuok_code_of_digraph6(line: &[u8], out: &mut [u8]) -> i64
    ensures { Reported (code_of_digraph6 line.now) out.old result out.new }
{
    reply_number(engine::code_of_digraph6(line, out))
}

// Where the bytes of the component at `position`, counted from 0, begin in `code`.
#[unsafe(no_mangle)]
pub extern "C" fn lethmuok_component_start(code: &[u8], position: usize) -> i64
    ensures { result ≡ signed_of (component_start code.now position) }
{
    reply_number(stretch_of(code, position).map(|part| part.start))
}

// Where they end.
#[unsafe(no_mangle)]
pub extern "C" fn lethmuok_component_end(code: &[u8], position: usize) -> i64
    ensures { result ≡ signed_of (component_end code.now position) }
{
    reply_number(stretch_of(code, position).map(|part| part.end))
}

// How many of the component's rotations equal it [document 02, paper 6: turns].
#[unsafe(no_mangle)]
pub extern "C" fn lethmuok_component_turns(code: &[u8], position: usize) -> i64
    ensures { result ≡ signed_of (component_turns code.now position) }
{
    reply_number(stretch_of(code, position).map(|part| part.turns))
}
