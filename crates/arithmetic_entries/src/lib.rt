// The public entries that give the sum and the product of two codes [document 02, paper 5]: the maps of both are made into one, and its code is written.
#![tactic(auto)]

ghost use Rattle.patterns.specs.Reading.{accepted};
ghost use Rattle.patterns.specs.MapOf.{map_of};
ghost use Rattle.patterns.specs.Entry.{Replied, outcome};
ghost use Rattle.patterns.specs.Arithmetic.{code_of_result, combined, sum_of_codes, product_of_codes};
ghost use Rattle.patterns.specs.Replies.{answer_of};
ghost use Rattle.combining.specs.Combining.{table_of};

use coding_entry::code_of_map;
use combining::{Operation, combine, points};
use decoding_entry::map_of_code;
use patterns::{Refusal, Reply, points_room};
use tables::Table;

// Puts the code of the map that is made of the maps `f` and `g` into `out`; it may have at most 200 points.
fn put_combined(operation: Operation, f: Table, g: Table, out: &mut [u8]) -> Reply
    ensures { Replied (code_of_result (table_of operation f.entry.images.now g.entry.images.now)) out.old (answer_of result) out.new }
{
    let k = points(operation, f.images.len(), g.images.len());
    if 200 < k {
        return Err(Refusal::TooLarge);
    }
    let mut table = points_room();
    combine(operation, f.images, g.images, &mut table[..k]);
    code_of_map(&table[..k], out)
}

// The same, where the second map is that of a code.
fn combine_with(operation: Operation, f: Table, second: &[u8], out: &mut [u8]) -> Reply
    ensures { Replied (outcome (accepted second.now) (λ T. code_of_result (table_of operation f.entry.images.now (map_of T))))
        out.old (answer_of result) out.new }
{
    let mut room = points_room();
    let m = map_of_code(second, &mut room)?;
    let g = Table { images: &room[..m] };
    put_combined(operation, f, g, out)
}

// The same, where both are. Two functions and not one twice: this one hands the second code on as bytes, that one has the first map already.
fn combine_codes(operation: Operation, first: &[u8], second: &[u8], out: &mut [u8]) -> Reply
    ensures { Replied (combined (table_of operation) first.now second.now) out.old (answer_of result) out.new }
{
    let mut room = points_room();
    let n = map_of_code(first, &mut room)?;
    let f = Table { images: &room[..n] };
    combine_with(operation, f, second, out)
}

// Writes the code of both systems side by side.
pub fn sum(first: &[u8], second: &[u8], out: &mut [u8]) -> Reply
    ensures { Replied (sum_of_codes first.now second.now) out.old (answer_of result) out.new }
{
    combine_codes(Operation::Sum, first, second, out)
}

// Writes the code of the system of pairs, each half moving by its own map.
pub fn product(first: &[u8], second: &[u8], out: &mut [u8]) -> Reply
    ensures { Replied (product_of_codes first.now second.now) out.old (answer_of result) out.new }
{
    combine_codes(Operation::Product, first, second, out)
}
