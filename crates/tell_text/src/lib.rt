// Whether the runs left of a plan tell a column from others acting together, as lines: for a held plan, and for a text with lost runs.
#![tactic(auto)]

pub mod routines;

// No answer is longer.
pub const MOST_BYTES: usize = 144_000;
