// Whether runs tell a column from others acting together, as lines.
#![tactic(auto)]

pub mod routines;
