// The comparisons of document 01, "The marker's guard", last paragraph: the examples, totals, a plain listing made by other means, damaged codes and hostile inputs
// with the refusal of each, the component reader, and runs on maps of 200 points. Each group prints one line: of how many comparisons how many hold.
#![tactic(auto)]

use case_calls::entries::Entry;
use case_text::faults::Fault;
use case_text::numbers::Numbers;
use case_text::scores;
use census_checks::CENSUS;
use std::io;
use std::rt::Files;

// Files of cases, and the names of their groups.
const REFUSALS: [(&str, &str); 5] = [
    ("damaged", "damaged codes"),
    ("damaged_long", "damaged codes of two-byte numbers"),
    ("reordered", "codes out of order"),
    ("hostile", "hostile inputs"),
    ("keystrokes", "codes at each keystroke"),
];

const ANSWERS: [(&str, &str); 10] = [
    ("rooms", "rooms and refusals"),
    ("steps", "successors"),
    ("steps_back", "predecessors"),
    ("codes", "codes of maps and maps of codes"),
    ("census", "census"),
    ("sums", "sums and products"),
    ("sums_long", "long sums"),
    ("products_long", "long products"),
    ("table_counts", "numbers of tables"),
    ("periods", "periods"),
];

// Whether a case holds, whose first number is that of its entry.
fn holds(numbers: &mut Numbers<'_>) -> Result<bool, Fault> {
    match numbers.number()? {
        CENSUS => census_checks::holds_whole(numbers),
        number => entry_checks::cases::holds(Entry::try_from(number)?, numbers),
    }
}

fn run(rt: &(impl Files + Print), groups: &[(&str, &str)]) -> io::Result<()> {
    for (name, group) in groups.iter().copied() {
        scores::run(rt, name.as_bytes(), group.as_bytes(), holds)?;
    }
    Ok(())
}

fn main(rt: HostRuntime) -> io::Result<()> {
    run(&rt, &[("examples", "examples")])?;
    list_checks::run(&rt)?;
    run(&rt, &REFUSALS)?;
    run(&rt, &ANSWERS)?;
    greatest_checks::run(&rt, b"greatest", b"greatest periods")?;
    page_checks::run(&rt, b"pages", b"pages of codes")?;
    page_checks::run(&rt, b"pages_long", b"long pages")?;
    reader_checks::run(&rt, b"components")?;
    entry_checks::pairs::run(&rt, b"pairs")
}
