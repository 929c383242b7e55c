// Compares the entries of the engine that answer with one list or one number: with cases, and on pairs of maps of 200 points.
#![tactic(auto)]

pub mod cases;
pub mod pairs;
