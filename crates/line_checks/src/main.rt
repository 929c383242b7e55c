// The comparisons of the digraph6 lines [document 02, paper 10] with those that other means made. Each group prints one line: of how many comparisons how many hold.
#![tactic(auto)]

use digraph6_checks::{run_both, run_in, run_out};
use std::io;

fn main(rt: HostRuntime) -> io::Result<()> {
    run_out(&rt, b"digraph6_out", b"digraph6 of codes")?;
    run_out(&rt, b"digraph6_out_long", b"digraph6 of long codes")?;
    run_in(&rt, b"digraph6_in", b"codes of digraph6")?;
    run_in(&rt, b"digraph6_sizes", b"sizes of digraph6")?;
    run_in(&rt, b"digraph6_in_long", b"codes of long digraph6")?;
    run_both(&rt, b"digraph6_back", b"digraph6 in and out")
}
