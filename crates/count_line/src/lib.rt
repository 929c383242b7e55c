// The line that the listing program reads: a count of points [document 01, "Sheet of examples"].
#![tactic(auto)]

ghost use Rattle.count_line.specs.Count.{Reads};

// Reads a decimal count from 0 to 14 without leading zeros, one newline, and nothing after it; any other input is none.
#[tactic(auto, using(crate::proofs::Inputs::reads_one, crate::proofs::Inputs::reads_two, crate::proofs::Inputs::reads_none))]
pub fn parse(input: &[u8]) -> Option<usize>
    ensures { Reads input.now result }
{
    match input {
        [ones @ b'0'..=b'9', b'\n'] => Some(usize::from(*ones - b'0')),
        [b'1', ones @ b'0'..=b'4', b'\n'] => Some(10 + usize::from(*ones - b'0')),
        _ => None,
    }
}
