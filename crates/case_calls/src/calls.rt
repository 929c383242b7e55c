// Calls of entries, for comparisons that go on with what they find. A list comes back with all that stands behind it.
use case_text::faults::Fault;
use case_text::lent;
use case_text::lists::List;
use patterns::{Found, Refusal, Reply};

// More room than any output takes.
const WIDE: usize = 2000;

fn refused(_: Refusal) -> Fault {
    Fault::Refused
}

// The list that an entry writes, where it finds one.
fn found<F: FnOnce(&mut [u8]) -> Found>(entry: F) -> Result<Option<List>, Refusal>
    requires { F.IsAlwaysCallable entry }
{
    let called = lent::call(WIDE, entry);
    let bytes = called.bytes;
    Ok(called.answer?.map(|len| List { bytes, len }))
}

// The list that an entry writes; of no bytes where it writes none.
fn written<F: FnOnce(&mut [u8]) -> Reply>(entry: F) -> List
    requires { F.IsAlwaysCallable entry }
{
    let called = lent::call(WIDE, entry);
    let bytes = called.bytes;
    let len = called.answer.unwrap_or(0);
    List { bytes, len }
}

pub fn first(n: usize) -> List {
    written(|out| engine::first(n, out))
}

pub fn code_of_map(table: &[u8]) -> List {
    written(|out| engine::code_of_map(table, out))
}

pub fn map_of_code(code: &[u8]) -> List {
    written(|out| engine::map_of_code(code, out))
}

// A renaming of the points of f that makes it g; of no bytes where there is none.
pub fn isomorphism(f: &[u8], g: &[u8]) -> List {
    written(|out| Ok(engine::isomorphism(f, g, out)?.unwrap_or(0)))
}

// The code after this one; none after the last.
pub fn successor(code: &[u8]) -> Result<Option<List>, Refusal> {
    found(|out| engine::successor(code, out))
}

// The code before this one; none before the first.
pub fn predecessor(code: &[u8]) -> Result<Option<List>, Refusal> {
    found(|out| engine::predecessor(code, out))
}

// Whether the code is accepted, and has n points.
pub fn is_accepted(code: &[u8], n: usize) -> bool {
    engine::accept(code) == Ok(n)
}

// How many tables have the code.
pub fn table_count(code: &[u8]) -> Result<u64, Fault> {
    engine::table_count(code).map_err(refused)
}

// The period of a map.
pub fn period(table: &[u8]) -> Result<u64, Fault> {
    engine::period(table).map_err(refused)
}
