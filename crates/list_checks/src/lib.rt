// Compares the list of all codes with what is known by other means: how many codes it has, how many of them are connected and how many tables they have together, and
// the text that the listing program writes. All uses of the crate `listing` stand here.
#![tactic(auto)]

pub mod programs;
pub mod totals;

use case_text::scores::report;
use std::io;
use std::rt::Files;

// The totals, the connected ones, the tables of all codes, the listings of 0 to 8 points, and inputs that are no count.
pub fn run(rt: &(impl Files + Print)) -> io::Result<()> {
    let found = totals::compare();
    report(rt, b"totals", found.codes)?;
    report(rt, b"connected", found.connected)?;
    report(rt, b"tables of all codes", found.tables)?;
    report(rt, b"plain listings", programs::listings(rt))?;
    report(rt, b"bad counts", programs::bad_counts())
}
