// A look over a plan (document 01, "Sizes"): whether a level occurs in a column, and whether a run repeats an earlier one.
#![tactic(auto)]

ghost use Rattle.std.specs.Prelude.{◌≡◌};
ghost use Rattle.rules.specs.Plan.{plan, every_run};
ghost use Rattle.rules.specs.Refusals.{of_plan};
ghost use Rattle.survey.specs.Survey.{occurs_answer, alike_answer};

use rules::Refusal;

pub mod routines;

// Whether some run has the level in the column.
pub fn level_occurs(levels: &[u8], table: &[u8], column: usize, level: u8) -> Result<bool, Refusal>
    ensures { let p = plan levels.now table.now in result ≡ occurs_answer p (every_run p) (of_plan p) column level }
{
    plan::check(levels, table)?;
    if levels.len() <= column || levels[column] <= level {
        return Err(Refusal::plain(8));
    }
    Ok(routines::occurs(levels, table, column, level))
}

// The first run with the same entries: the run itself, or an earlier one that it repeats.
pub fn first_alike(levels: &[u8], table: &[u8], run: usize) -> Result<usize, Refusal>
    ensures { let p = plan levels.now table.now in result ≡ alike_answer p (every_run p) (of_plan p) run }
{
    plan::check(levels, table)?;
    if table.len() / levels.len() <= run {
        return Err(Refusal::plain(8));
    }
    Ok(routines::first_alike(levels, table, run))
}
