// Compares both entries of the census, the list of structs and the two columns, with the cases of the census [tools/README.md], row by row.
#![tactic(auto)]

mod beginnings;
#[cfg(test)]
mod tests;

use beginnings::Beginning;
use case_calls::answers::Answer;
use case_text::faults::Fault;
use case_text::lists::{FILLING, List};
use case_text::numbers::Numbers;
use patterns::{Census, Refusal, Row};
use std::alloc::Global;

// The number of the census in the files of cases.
pub const CENSUS: usize = 7;

// Places for rows: the greatest room of a case, and more.
const PLACES: usize = 24;

// Bytes of an expected list that are kept: the height, and two for each of the places, of which a census takes 19 at most.
const KEPT: usize = 2 * PLACES + 1;

// Bytes of a table that are enough: with so many points it is refused for its length, as with more.
const ENOUGH: usize = 201;

// What stands in every row before a call.
const BLANK: Row = Row {
    cycle_length: FILLING,
    cycles: FILLING,
};

// What is told, or the number of the cause, and all rows, of which the first places were lent.
#[derive(Clone, Copy, Debug, PartialEq, Eq)]
struct Counted {
    told: Result<Census, u8>,
    rows: [Row; 24],
}

impl Counted {
    fn of(reply: Result<Census, Refusal>, rows: [Row; 24]) -> Counted {
        Counted {
            told: reply.map_err(u8::from),
            rows,
        }
    }
}

// Rows that are written one after another: each its length, and its number of cycles. After them stands the filling.
fn rows_of(list: &[u8]) -> [Row; 24] {
    let mut rows = [BLANK; PLACES];
    for (row, written) in rows.iter_mut().zip(list.chunks(2)) {
        if let [cycle_length, cycles] = written {
            *row = Row {
                cycle_length: *cycle_length,
                cycles: *cycles,
            };
        }
    }
    rows
}

// What a case asks for: in its list the height comes before the rows. A refusal tells nothing but its cause.
fn wanted(numbers: &mut Numbers<'_>) -> Result<Counted, Fault> {
    let answer = Answer::read(numbers)?;
    let output = numbers.list()?;
    let bytes = &output.bytes[..];
    let told = match answer {
        Answer::Number(rows) if output.len == rows.saturating_mul(2).saturating_add(1) => {
            Ok(Census {
                rows,
                height: usize::from(bytes[0]),
            })
        }
        Answer::Refused(cause) if output == List::empty() => Err(cause),
        _ => return Err(Fault::Malformed),
    };
    let rows = rows_of(&bytes[1..]);
    Ok(Counted { told, rows })
}

// The census in a list of structs of so many places, or of all that there are.
fn in_rows(table: &[u8], places: usize) -> Counted {
    let mut rows = [BLANK; PLACES];
    let places = places.min(PLACES);
    let reply = engine::census(table, &mut rows[..places]);
    Counted::of(reply, rows)
}

// The census in two columns of so many places, or of all that there are.
fn in_columns(table: &[u8], places: usize) -> Counted {
    let mut lengths = [FILLING; PLACES];
    let mut counts = [FILLING; PLACES];
    let places = places.min(PLACES);
    let reply = engine::census_columns(table, &mut lengths[..places], &mut counts[..places]);
    let mut rows = [BLANK; PLACES];
    for (row, (cycle_length, cycles)) in rows.iter_mut().zip(lengths.iter().zip(&counts)) {
        *row = Row {
            cycle_length: *cycle_length,
            cycles: *cycles,
        };
    }
    Counted::of(reply, rows)
}

// Whether a case holds, of which the places, the table, an empty list, the answer and the rows are left. The list of the rows has to be as long as the rows that are told,
// and that of a refusal empty with nothing behind it.
pub fn holds_whole(numbers: &mut Numbers<'_>) -> Result<bool, Fault> {
    let places = numbers.number()?;
    let table = numbers.list()?;
    let second = numbers.list()?;
    let wanted = wanted(numbers)?;
    let table = table.as_slice();
    Ok(second.len == 0 && in_rows(table, places) == wanted && in_columns(table, places) == wanted)
}

// What is told beside a list of this length and height: a census where the height stands alone or before whole rows, a refusal where the list is empty and so has no height;
// else the line is no case.
fn told(answer: Answer, len: usize, height: u8) -> Result<Result<Census, u8>, Fault> {
    match answer {
        Answer::Number(rows) if len % 2 == 1 => Ok(Ok(Census {
            rows,
            height: usize::from(height),
        })),
        Answer::Refused(cause) if len == 0 => Ok(Err(cause)),
        _ => Err(Fault::Malformed),
    }
}

// As `holds_whole`, of lists of any length, which are read otherwise: rows beyond those that are told pass where they have places and are as these were filled, a list without
// a pattern is empty, and what a pattern has beyond its list is passed over. The allocator is not used.
pub fn holds(_: Global, numbers: &mut Numbers<'_>) -> Result<bool, Fault> {
    let places = numbers.number()?;
    let table = Beginning::<ENOUGH>::read(numbers)?;
    let second = Beginning::<0>::read(numbers)?;
    let answer = Answer::read(numbers)?;
    let output = Beginning::<KEPT>::read(numbers)?;
    let wanted = Counted {
        told: told(answer, output.len, output.bytes[0])?,
        rows: rows_of(&output.bytes[1..]),
    };
    let table = table.as_slice();
    Ok(
        second.len == 0
            && output.len / 2 <= places
            && output.is_filled_after
            && in_rows(table, places) == wanted
            && in_columns(table, places) == wanted,
    )
}
