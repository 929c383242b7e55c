// What all comparisons share: the numbers of a case, lists by value, outputs that are lent to an entry, why a comparison cannot be made, and the line that a group prints.
#![tactic(auto)]

pub mod faults;
pub mod lent;
pub mod lists;
pub mod numbers;
pub mod scores;
