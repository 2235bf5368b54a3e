// A projection table as lines (request #107).
#![tactic(auto)]

pub mod routines;
