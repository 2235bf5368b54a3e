// Pairs of runs counted by cell, so that what a pair adds to the words is worked out once for each cell.
#![tactic(auto)]

pub mod routines;
