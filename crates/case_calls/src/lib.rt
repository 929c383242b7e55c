// The entries of the engine that answer with one list or one number: as the files of cases name them and tell their answers [tools/README.md], and as calls that
// write a list of their own.
#![tactic(auto)]

pub mod answers;
pub mod calls;
pub mod entries;
