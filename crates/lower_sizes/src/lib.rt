// The list of sizes of a system in memory, one back: the size list before, and the last components that fill it.
#![tactic(auto)]

mod fill;
mod sizes;

pub use fill::last_right;
pub use sizes::previous_sizes;
