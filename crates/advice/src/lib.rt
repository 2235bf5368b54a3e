// Advice on the run to lose, and losing in turn (document 01, "The held plan").
#![tactic(auto)]

ghost use Rattle.std.specs.Prelude.{◌≡◌};
ghost use Rattle.rules.specs.Plan.{plan, every_run};
ghost use Rattle.rules.specs.Refusals.{of_plan};
ghost use Rattle.advice.specs.Advice.{advice_answer, turns_answer};

use exact::listed::Numbers;
use rules::Refusal;

pub mod routines;

// The run whose loss leaves the best plan; two or more must stand.
pub fn advice(levels: &[u8], table: &[u8]) -> Result<usize, Refusal>
    ensures { let p = plan levels.now table.now in result ≡ advice_answer p (every_run p) (of_plan p) }
{
    let runs = plan::routines::checked_runs(levels, table)?;
    routines::advice_answer(levels, table, runs.as_slice())
}

// The advice taken k times in turn, the runs in the order taken, zero in any place left over; more than k must stand.
pub fn in_turn(levels: &[u8], table: &[u8], k: usize) -> Result<Numbers<3>, Refusal>
    ensures { let p = plan levels.now table.now in result ≡ turns_answer p (every_run p) (of_plan p) k }
{
    let runs = plan::routines::checked_runs(levels, table)?;
    routines::turns_answer(levels, table, runs.as_slice(), k)
}
