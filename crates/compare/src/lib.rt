// The comparison of two plans by generalized minimum aberration (document 01, "Words").
#![tactic(auto)]

ghost use Rattle.std.specs.Prelude.{◌≡◌};
ghost use Rattle.rules.specs.Plan.{plan};
ghost use Rattle.compare.specs.Compare.{compare_plans};

use exact::fractions::Verdict;
use routines::{compare_answer, side_of};
use rules::Refusal;

pub mod routines;

// A refusal says which plan it is of, 1 or 2.
#[derive(Clone, Copy, Debug, PartialEq, Eq)]
pub struct RefusedPlan {
    pub plan: usize,
    pub refusal: Refusal,
}

// The first plan is checked entirely, then the second. Plans with different numbers of columns cannot be compared: there is no verdict.
pub fn compare(
    levels1: &[u8],
    table1: &[u8],
    levels2: &[u8],
    table2: &[u8],
) -> Result<Option<Verdict>, RefusedPlan>
    ensures { result ≡ compare_plans (plan levels1.now table1.now) (plan levels2.now table2.now) }
{
    compare_answer(side_of(levels1, table1), side_of(levels2, table2))
}
