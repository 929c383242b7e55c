// Whether a case holds, of each of the three forms.
use crate::runs;
use case_calls::answers::Answer;
use case_text::faults::Fault;
use case_text::lent;
use case_text::lists::List;
use case_text::numbers::Numbers;

fn line_of(code: &List, out: &mut [u8]) -> Answer {
    Answer::from(engine::digraph6_of_code(code.as_slice(), out))
}

fn code_of(line: &List, out: &mut [u8]) -> Answer {
    Answer::from(engine::code_of_digraph6(line.as_slice(), out))
}

// A code, the room, the answer, and the line that must be written.
pub fn goes_out(numbers: &mut Numbers<'_>) -> Result<bool, Fault> {
    let code = numbers.list()?;
    let room = numbers.number()?;
    let answer = Answer::read(numbers)?;
    let line = runs::read(numbers)?;
    let called = lent::call(room, |out| line_of(&code, out));
    Ok(called.is(&answer, &line))
}

// A line, the room, the answer, and the code that must be written.
pub fn comes_in(numbers: &mut Numbers<'_>) -> Result<bool, Fault> {
    let line = runs::read(numbers)?;
    let room = numbers.number()?;
    let answer = Answer::read(numbers)?;
    let code = numbers.list()?;
    let called = lent::call(room, |out| code_of(&line, out));
    Ok(called.is(&answer, &code))
}

// Whether an entry writes just this, with no place to spare.
fn gives<F: FnOnce(&mut [u8]) -> Answer>(output: &List, entry: F) -> bool
    requires { F.IsAlwaysCallable entry }
{
    lent::call(output.len, entry).is(&Answer::Number(output.len), output)
}

// A line, its code, and the line of that code, which comes in as it again.
pub fn goes_both_ways(numbers: &mut Numbers<'_>) -> Result<bool, Fault> {
    let line = runs::read(numbers)?;
    let code = numbers.list()?;
    let own = runs::read(numbers)?;
    Ok(
        gives(&code, |out| code_of(&line, out))
            && gives(&own, |out| line_of(&code, out))
            && gives(&code, |out| code_of(&own, out)),
    )
}
