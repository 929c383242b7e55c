// Compares the component reader with cases: a code and a position in it, the answer that must be given, and the bytes that must be shown [tools/README.md].
#![tactic(auto)]

use case_text::faults::Fault;
use case_text::numbers::{Numbers, Told};
use case_text::scores;
use std::io;
use std::rt::Files;

// Where the part begins and the component's turns. Where it ends is seen by the bytes that are shown.
fn answer(code: &[u8], position: usize) -> Told {
    component_parts::stretch_of(code, position)
        .map(|part| (part.start, part.turns))
        .map_err(u8::from)
}

fn holds(numbers: &mut Numbers<'_>) -> Result<bool, Fault> {
    let code = numbers.list()?;
    let position = numbers.number()?;
    let told = numbers.told()?;
    let part = numbers.list()?;
    let code = code.as_slice();
    let shown = component_reader::component(code, position);
    Ok(answer(code, position) == told && shown == part.as_slice())
}

// The cases of the file of this name.
pub fn run(rt: &(impl Files + Print), name: &[u8]) -> io::Result<()> {
    scores::run(rt, name, b"component reader", holds)
}
