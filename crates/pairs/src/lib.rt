// What a pair of runs adds to the words (document 01, "Words").
#![tactic(auto)]

pub mod routines;
