// Strength, found by counting level combinations (document 01, "Strength, resolution, projections").
#![tactic(auto)]

pub mod routines;

ghost use Rattle.std.specs.Prelude.{◌≡◌};
ghost use Rattle.rules.specs.Plan.{plan, every_run};
ghost use Rattle.rules.specs.Refusals.{of_plan};
ghost use Rattle.counts.specs.Counts.{strength_answer};

use rules::Refusal;

// The largest t such that in every choice of t columns all level combinations occur equally often.
pub fn strength(levels: &[u8], table: &[u8]) -> Result<usize, Refusal>
    ensures { let p = plan levels.now table.now in result ≡ strength_answer p (every_run p) (of_plan p) }
{
    let runs = plan::routines::checked_runs(levels, table)?;
    Ok(routines::strength(levels, table, runs.as_slice()))
}
