// Compares the entry that writes a code with the greatest period with cases: a number of points, the room, and the period or the refusal that must be told
// [tools/README.md]. Which code is written is open, so it is compared with none: it must be accepted with that number of points, and its map must have as many
// and that period.
#![tactic(auto)]

use case_calls::answers::Answer;
use case_calls::calls;
use case_text::faults::Fault;
use case_text::numbers::Numbers;
use case_text::{lent, scores};
use std::io;
use std::rt::Files;

// As many bytes as a code may have here.
const ENOUGH: usize = 1000;

// Whether a code is accepted with n points, and its map has as many and this period.
fn has_period(code: &[u8], n: usize, period: u64) -> bool {
    if !calls::is_accepted(code, n) {
        return false;
    }
    let table = calls::map_of_code(code);
    table.len == n && calls::period(table.as_slice()) == Ok(period)
}

// Whether the answer is the one that is told, and the output begins with the code that was found, and is as it was filled after it; where none was found, from the
// first byte on.
fn holds(numbers: &mut Numbers<'_>) -> Result<bool, Fault> {
    let n = numbers.number()?;
    let room = numbers.number()?;
    let told = Answer::read(numbers)?;
    let called = lent::call(room, |out| engine::greatest_period(n, out));
    if Answer::from(called.answer.map(|found| found.period)) != told {
        return Ok(false);
    }
    Ok(match called.answer {
        Ok(found) => called.beginning(found.length).is_some_and(|code| code.len() <= ENOUGH
            && has_period(code, n, found.period)),
        Err(_) => called.beginning(0).is_some(),
    })
}

// The cases of the file of this name, as the group of this name.
pub fn run(rt: &(impl Files + Print), name: &[u8], group: &[u8]) -> io::Result<()> {
    scores::run(rt, name, group, holds)
}
