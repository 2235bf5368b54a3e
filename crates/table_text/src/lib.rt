// The projection table of the runs left of a plan, as lines (request #107): for a held plan, and for a text with lost runs.
#![tactic(auto)]

pub mod routines;

// No answer is longer.
pub const MOST_BYTES: usize = 733_245;
