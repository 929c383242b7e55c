// What an entry answered, as the files of cases have it.
use case_text::faults::Fault;
use case_text::numbers::Numbers;
use patterns::{Found, Refusal, Reply};

#[derive(Clone, Copy, Debug, PartialEq, Eq, Hash)]
pub enum Answer {
    // The length of what was written, or another number that was asked for.
    Number(usize),

    // No code comes after this one.
    Last,

    // There is no isomorphism.
    Lacking,

    // The number of the cause.
    Refused(u8),

    // No code comes before this one.
    First,
}

// By the kind and the number, which is 0 where an answer has none.
impl TryFrom<(usize, usize)> for Answer {
    type Error = Fault;

    fn try_from((kind, number): (usize, usize)) -> Result<Answer, Fault> {
        match (kind, number) {
            (0, _) => Ok(Answer::Number(number)),
            (1, 0) => Ok(Answer::Last),
            (2, 0) => Ok(Answer::Lacking),
            (3, _) => u8::try_from(number)
                .map(Answer::Refused)
                .map_err(|_| Fault::Malformed),
            (4, 0) => Ok(Answer::First),
            _ => Err(Fault::Malformed),
        }
    }
}

impl From<Refusal> for Answer {
    fn from(cause: Refusal) -> Answer {
        Answer::Refused(u8::from(cause))
    }
}

impl From<Reply> for Answer {
    fn from(reply: Reply) -> Answer {
        match reply {
            Ok(number) => Answer::Number(number),
            Err(cause) => Answer::from(cause),
        }
    }
}

// How many tables have a code, or a period.
impl From<Result<u64, Refusal>> for Answer {
    fn from(reply: Result<u64, Refusal>) -> Answer {
        Answer::from(reply.map(|number| number as usize))
    }
}

impl Answer {
    // What an entry answers that may find nothing, which it says by `nothing`.
    pub fn found(reply: Found, nothing: Answer) -> Answer {
        match reply {
            Ok(Some(number)) => Answer::Number(number),
            Ok(None) => nothing,
            Err(cause) => Answer::from(cause),
        }
    }

    pub fn read(numbers: &mut Numbers<'_>) -> Result<Answer, Fault> {
        let kind = numbers.number()?;
        let number = numbers.number()?;
        Answer::try_from((kind, number))
    }
}
