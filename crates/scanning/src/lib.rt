// The children of a component, looked for place by place among its candidates [document 004, Lemma 12]: the first one from a place on, and the last one before a
// place. A component is flat: a byte for each point.
#![tactic(auto)]

mod down;
mod up;

pub use down::scan_down;
pub use up::scan;
