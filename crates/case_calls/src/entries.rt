// The entries by their numbers in the files of cases, and what a case gives to one.
use crate::answers::Answer;
use case_text::faults::Fault;
use case_text::lists::List;

#[derive(Clone, Copy, Debug, PartialEq, Eq, Hash)]
pub enum Entry {
    Accept,
    First,
    Successor,
    CodeOfMap,
    MapOfCode,
    Isomorphism,
    Predecessor,
    Sum,
    Product,
    TableCount,
    Period,
}

// The number 7 is that of the census, which is no entry of this crate.
impl TryFrom<usize> for Entry {
    type Error = Fault;

    fn try_from(number: usize) -> Result<Entry, Fault> {
        match number {
            1 => Ok(Entry::Accept),
            2 => Ok(Entry::First),
            3 => Ok(Entry::Successor),
            4 => Ok(Entry::CodeOfMap),
            5 => Ok(Entry::MapOfCode),
            6 => Ok(Entry::Isomorphism),
            8 => Ok(Entry::Predecessor),
            9 => Ok(Entry::Sum),
            10 => Ok(Entry::Product),
            11 => Ok(Entry::TableCount),
            12 => Ok(Entry::Period),
            _ => Err(Fault::Malformed),
        }
    }
}

// Two lists, of which most entries take the first, and a count, which `first` takes.
#[derive(Clone, Copy, Debug)]
pub struct Input {
    pub count: usize,
    pub first: List,
    pub second: List,
}

impl Entry {
    // What the entry answers, with this lent.
    pub fn answer(self, input: &Input, out: &mut [u8]) -> Answer {
        let code = input.first.as_slice();
        let second = input.second.as_slice();
        match self {
            Entry::Accept => Answer::from(engine::accept(code)),
            Entry::First => Answer::from(engine::first(input.count, out)),
            Entry::Successor => Answer::found(engine::successor(code, out), Answer::Last),
            Entry::CodeOfMap => Answer::from(engine::code_of_map(code, out)),
            Entry::MapOfCode => Answer::from(engine::map_of_code(code, out)),
            Entry::Isomorphism => Answer::found(
                engine::isomorphism(code, second, out),
                Answer::Lacking,
            ),
            Entry::Predecessor => Answer::found(engine::predecessor(code, out), Answer::First),
            Entry::Sum => Answer::from(engine::sum(code, second, out)),
            Entry::Product => Answer::from(engine::product(code, second, out)),
            Entry::TableCount => Answer::from(engine::table_count(code)),
            Entry::Period => Answer::from(engine::period(code)),
        }
    }
}
