// Compares the page entry with cases: a code, how many codes are wanted, the room, the answer that must be given, and the bytes that must be written [tools/README.md].
#![tactic(auto)]

use case_text::faults::Fault;
use case_text::numbers::Numbers;
use case_text::{lent, scores};
use std::io;
use std::rt::Files;

fn holds(numbers: &mut Numbers<'_>) -> Result<bool, Fault> {
    let code = numbers.list()?;
    let wanted = numbers.number()?;
    let room = numbers.number()?;
    let told = numbers.told()?;
    let output = numbers.list()?;
    let called = lent::call(room, |out| engine::page(code.as_slice(), wanted, out));
    let answer = called.answer.map(|page| (page.codes, page.bytes));
    Ok(answer.map_err(u8::from) == told && called.has_written(&output))
}

// The cases of the file of this name, as the group of this name.
pub fn run(rt: &(impl Files + Print), name: &[u8], group: &[u8]) -> io::Result<()> {
    scores::run(rt, name, group, holds)
}
