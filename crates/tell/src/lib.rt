// Whether the runs can tell an effect of one column from other columns acting together.
#![tactic(auto)]

pub mod routines;
mod scores;
mod walk;

ghost use Rattle.std.specs.Prelude.{◌≡◌};
ghost use Rattle.rules.specs.Plan.{plan, every_run};
ghost use Rattle.rules.specs.Refusals.{of_plan};
ghost use Rattle.tell.specs.Answer.{tell_answer};

use rules::Refusal;

// The groups of the column's levels, each level with its lowest; and the pairs of runs by which two groups became one: left[k] and
// right[k] for each k below many.
#[derive(Clone, Copy)]
pub struct Joins {
    pub groups: [u8; 16],
    pub left: [usize; 16],
    pub right: [usize; 16],
    pub many: usize,
}

// Whether the runs tell, with the groups and the links.
#[derive(Clone, Copy)]
pub struct Told {
    pub tells: bool,
    pub joins: Joins,
}

// Whether all runs of a plan can tell an effect of the column from the others, which rise and are without it, acting together.
pub fn tell(levels: &[u8], table: &[u8], column: usize, others: &[usize]) -> Result<Told, Refusal>
    ensures { let p = plan levels.now table.now in
        result ≡ tell_answer p (every_run p) (of_plan p) column others.now }
{
    let runs = plan::routines::checked_runs(levels, table)?;
    routines::tell_answer(levels, table, runs.as_slice(), column, others)
}
