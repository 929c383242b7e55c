// Compares the answer of an entry, what it wrote and what it left as it was with a case: the examples, damaged codes, codes out of order, hostile inputs, codes at
// each keystroke, rooms, successors, codes of maps and maps of codes, sums and products, numbers of tables, periods [tools/README.md].
use case_calls::answers::Answer;
use case_calls::entries::{Entry, Input};
use case_text::faults::Fault;
use case_text::lent;
use case_text::numbers::Numbers;

// The count that `first` takes stands in the place of the first list's length.
fn input(numbers: &mut Numbers<'_>) -> Result<Input, Fault> {
    let first = numbers.list()?;
    Ok(Input {
        count: first.len,
        first,
        second: numbers.list()?,
    })
}

// Whether a case of this entry holds: what is left of it is the room, the input, the answer and the output.
pub fn holds(entry: Entry, numbers: &mut Numbers<'_>) -> Result<bool, Fault> {
    let room = numbers.number()?;
    let input = input(numbers)?;
    let answer = Answer::read(numbers)?;
    let output = numbers.list()?;
    let called = lent::call(room, |out| entry.answer(&input, out));
    Ok(called.is(&answer, &output))
}
