// Questions to a held plan: every answer of the library, over the runs that stand.
#![tactic(auto)]

use compare::RefusedPlan;
use exact::fractions::Verdict;
use held::Held;

pub mod questions;
pub mod ratings;
pub mod tables;

// What a comparison answers, and both plans as they were.
#[derive(Clone, Copy)]
pub struct HeldComparison {
    pub held: Held,
    pub other: Held,
    pub answer: Result<Option<Verdict>, RefusedPlan>,
}
