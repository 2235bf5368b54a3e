// The cell of a pair of runs: how many columns of each level agree, as one number.
#![tactic(auto)]

pub mod routines;
pub mod strides;
