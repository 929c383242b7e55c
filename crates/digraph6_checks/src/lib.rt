// Compares the two entries of digraph6 lines, code to line and line to code, with cases [tools/README.md]. Those of one entry are an input, the room, the answer that
// must be given, and the bytes that must be written. Those of both are a line, the code that it must come in as, and the line that must go out for that code and
// come in as it again.
#![tactic(auto)]

mod cases;
mod runs;

use case_text::scores;
use std::io;
use std::rt::Files;

// The cases of codes to lines in the file of this name, as the group of this name.
pub fn run_out(rt: &(impl Files + Print), name: &[u8], group: &[u8]) -> io::Result<()> {
    scores::run(rt, name, group, cases::goes_out)
}

// Those of lines to codes.
pub fn run_in(rt: &(impl Files + Print), name: &[u8], group: &[u8]) -> io::Result<()> {
    scores::run(rt, name, group, cases::comes_in)
}

// Those of both.
pub fn run_both(rt: &(impl Files + Print), name: &[u8], group: &[u8]) -> io::Result<()> {
    scores::run(rt, name, group, cases::goes_both_ways)
}
