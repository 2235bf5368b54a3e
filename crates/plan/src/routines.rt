// For our own crates: how a call on a plan begins, its runs, and its columns of several levels.
ghost use Rattle.std.specs.Prelude.{◌≡◌, [], ◌≤◌, length};
ghost use Rattle.rules.specs.Plan.{plan, level, every_column, every_run, several, most_columns};
ghost use Rattle.rules.specs.Refusals.{refusal, answered, plan_checks};

use crate::check;
use exact::listed::Numbers;
use rules::Refusal;
use rules::sizes::{MOST_COLUMNS, MOST_RUNS};

// How a call on a plan begins: its checks, and the runs that it is about.
pub fn checked_runs(levels: &[u8], table: &[u8]) -> Result<Numbers<MOST_RUNS>, Refusal>
    ensures { let p = plan levels.now table.now in result ≡ answered (refusal (plan_checks p)) (every_run p) }
{
    check(levels, table)?;
    Ok(Numbers::first(table.len() / levels.len()))
}

// The columns of more than one level.
pub fn several_levels(levels: &[u8]) -> Numbers<MOST_COLUMNS>
    requires { length levels.now ≤ most_columns }
    ensures { let p = plan levels.now [] in result ≡ several (level p) (every_column p) }
{
    let mut columns = Numbers::new();
    for (i, level) in levels.iter().enumerate() {
        if 1 < *level {
            columns.push(i);
        }
    }
    columns
}
