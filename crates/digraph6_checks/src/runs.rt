// Lists that are written in runs: nearly all bytes of a long line are the same one [tools/README.md].
use case_text::faults::Fault;
use case_text::lists::List;
use case_text::numbers::Numbers;

// A list, written as the number of its runs and the byte and the length of each. What does not fit its places is left out.
pub fn read(numbers: &mut Numbers<'_>) -> Result<List, Fault> {
    let runs = numbers.number()?;
    let mut list = List::empty();
    for _ in 0..runs {
        let byte = numbers.byte()?;
        let len = numbers.number()?;
        list.put(byte, len);
    }
    Ok(list)
}
