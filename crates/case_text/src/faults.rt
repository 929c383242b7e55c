// Why a comparison cannot be made. It does not hold then.
use std::error::Error;
use std::fmt;

#[derive(Clone, Copy, Debug, PartialEq, Eq, Hash)]
pub enum Fault {
    // The line is no case: it ends too early, or has a number that may not stand there.
    Malformed,

    // An entry wrote no list, or told no number, where the comparison needs one.
    Refused,
}

impl fmt::Display for Fault {
    fn fmt<W: fmt::Write>(&self, f: &mut fmt::Formatter<W>) -> fmt::Result {
        f.write_str(match self {
            Fault::Malformed => "the line is no case",
            Fault::Refused => "an entry refused",
        })
    }
}

impl Error for Fault {}
