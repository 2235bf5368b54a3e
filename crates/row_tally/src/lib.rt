// Row sums by cells: the pairs of a run counted by cell, and the sums of a cell's pairs kept from run to run.
#![tactic(auto)]

pub mod routines;
