// The numbers of a case: decimal ones, each ended by a space or the end of the line [tools/README.md].
use crate::faults::Fault;
use crate::lists::List;
use std::str::{FromStr, SplitAsciiWhitespace};

// The numbers of a line that are still to be read.
#[derive(Drop)]
pub struct Numbers<'a> {
    left: SplitAsciiWhitespace<'a>,
}

// What an entry told: two numbers, or the number of the cause of its refusal.
pub type Told = Result<(usize, usize), u8>;

impl<'a> Numbers<'a> {
    pub fn of(line: &'a str) -> Self {
        Numbers {
            left: line.split_ascii_whitespace(),
        }
    }

    // Whether no number is left.
    pub fn is_done(&mut self) -> bool {
        self.left.next().is_none()
    }

    fn read<T: FromStr>(&mut self) -> Result<T, Fault>
    where
        T::Err: Drop,
    {
        let word = self.left.next().ok_or(Fault::Malformed)?;
        word.parse().map_err(|_| Fault::Malformed)
    }

    pub fn number(&mut self) -> Result<usize, Fault> {
        self.read()
    }

    pub fn byte(&mut self) -> Result<u8, Fault> {
        self.read()
    }

    // What an entry must tell: the kind of its answer, and two numbers, of which a refusal has one and 0.
    pub fn told(&mut self) -> Result<Told, Fault> {
        let kind = self.number()?;
        let first = self.number()?;
        let second = self.number()?;
        match (kind, u8::try_from(first), second) {
            (0, _, _) => Ok(Ok((first, second))),
            (3, Ok(cause), 0) => Ok(Err(cause)),
            _ => Err(Fault::Malformed),
        }
    }

    // A list: its length, the length of its pattern and the pattern, which is repeated until the length is reached. A pattern that is longer than its list is read whole,
    // and then stands behind the list too, where a comparison finds it. Without a pattern the list is as it was filled.
    pub fn list(&mut self) -> Result<List, Fault> {
        let len = self.number()?;
        let period = self.number()?;
        let mut bytes = List::empty().bytes;
        let (pattern, rest) = bytes.split_at_mut_checked(period).ok_or(Fault::Malformed)?;
        for place in pattern.iter_mut() {
            *place = self.byte()?;
        }
        let repeated = pattern.iter().cycle().take(len.saturating_sub(period));
        for (place, byte) in rest.iter_mut().zip(repeated) {
            *place = *byte;
        }
        Ok(List { bytes, len })
    }
}
