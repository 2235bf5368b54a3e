// A plan's checks: refusals 1 to 5 of document 01, and their places.
#![tactic(auto)]

ghost use Rattle.std.specs.Prelude.{◌≡◌, []};
ghost use Rattle.rules.specs.Plan.{plan};
ghost use Rattle.rules.specs.Refusals.{refusal, answered, level_checks, plan_checks};

use levels::{first_bad_level, product_above};
use rules::Refusal;
use rules::sizes::MOST_COLUMNS;
use table::check_table;

mod levels;
pub mod routines;
mod table;

// Refusals 1, 2 and 3: the number of columns, the levels, their product.
pub fn check_levels(levels: &[u8]) -> Result<(), Refusal>
    ensures { result ≡ answered (refusal (level_checks (plan levels.now []))) tt }
{
    let m = levels.len();
    if m < 1 || MOST_COLUMNS < m {
        return Err(Refusal::plain(1));
    }
    let bad = first_bad_level(levels);
    if bad < m {
        return Err(Refusal::placed(2, bad, 0));
    }
    if product_above(levels) {
        return Err(Refusal::plain(3));
    }
    Ok(())
}

// Refusals 1 to 5: the levels, then the table.
pub fn check(levels: &[u8], table: &[u8]) -> Result<(), Refusal>
    ensures { result ≡ answered (refusal (plan_checks (plan levels.now table.now))) tt }
{
    check_levels(levels)?;
    check_table(levels, table)
}
