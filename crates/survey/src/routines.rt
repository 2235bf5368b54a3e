// For our own crates: the same of a plan that the caller has shown to be good.
ghost use Rattle.std.specs.Prelude.{◌≡◌, ◌<◌};
ghost use Rattle.rules.specs.Plan.{plan, columns, runs, every_run};
ghost use Rattle.plan.specs.Good.{Good};
ghost use Rattle.survey.specs.Survey.{occurs, alike, first_alike};

// Whether some run has the level in the column.
pub fn occurs(levels: &[u8], table: &[u8], column: usize, level: u8) -> bool
    requires { let p = plan levels.now table.now in Good p × (column < columns p) }
    ensures { let p = plan levels.now table.now in result ≡ occurs p (every_run p) column level }
{
    let m = levels.len();
    let n = table.len() / m;
    for f in 0..n {
        if table[f * m + column] == level {
            return true;
        }
    }
    false
}

// Whether the runs f and g have the same entries.
fn are_alike(levels: &[u8], table: &[u8], f: usize, g: usize) -> bool
    requires { let p = plan levels.now table.now in Good p × ((f < runs p) × (g < runs p)) }
    ensures { result ≡ alike (plan levels.now table.now) f g }
{
    let m = levels.len();
    table[f * m..f * m + m] == table[g * m..g * m + m]
}

// The first run with the same entries: an earlier one, or the run itself.
pub fn first_alike(levels: &[u8], table: &[u8], run: usize) -> usize
    requires { let p = plan levels.now table.now in Good p × (run < runs p) }
    ensures { let p = plan levels.now table.now in result ≡ first_alike p (every_run p) run }
{
    for g in 0..run {
        if are_alike(levels, table, run, g) {
            return g;
        }
    }
    run
}
