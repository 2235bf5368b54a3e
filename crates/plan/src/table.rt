// The checks of the run table.
ghost use Rattle.std.specs.Prelude.{◌≡◌, [], ◌∷◌, ◌*◌, ◌≤◌, length};
ghost use Rattle.rules.specs.Plan.{plan, most_columns, most_runs};
ghost use Rattle.rules.specs.Refusals.{refusal, answered, bad_entry, table_checks};

use rules::Refusal;
use rules::sizes::MOST_RUNS;

// Refusal 5: the first entry, in run order and then column order, that is not below its level.
pub(crate) fn check_entries(levels: &[u8], table: &[u8], n: usize) -> Result<(), Refusal>
    requires { (length levels.now ≤ most_columns) × ((n ≤ most_runs) × (length table.now ≡ n * length levels.now)) }
    ensures { result ≡ answered (refusal (bad_entry (plan levels.now table.now) ∷ [])) tt }
{
    let m = levels.len();
    let mut found = Ok(());
    'runs: for f in 0..n {
        for i in 0..m {
            if levels[i] <= table[f * m + i] {
                found = Err(Refusal::placed(5, f, i));
                break 'runs;
            }
        }
    }
    found
}

// Refusals 4 and 5, of a plan with columns.
pub(crate) fn check_table(levels: &[u8], table: &[u8]) -> Result<(), Refusal>
    requires { (1 ≤ length levels.now) × (length levels.now ≤ most_columns) }
    ensures { result ≡ answered (refusal (table_checks (plan levels.now table.now))) tt }
{
    let m = levels.len();
    let size = table.len();
    if size == 0 || size % m != 0 {
        return Err(Refusal::plain(4));
    }
    let n = size / m;
    if MOST_RUNS < n {
        return Err(Refusal::plain(4));
    }
    check_entries(levels, table, n)
}
