// For our own crates: whether some runs of a plan, which each caller has shown to be sound, tell a column from others; and the figure of the
// words.
ghost use Rattle.std.specs.Prelude.{◌≡◌, [], ◌∷◌, ◌≤◌, length};
ghost use Rattle.rules.specs.Plan.{plan, level, entry};
ghost use Rattle.rules.specs.Refusals.{refusal, answered};
ghost use Rattle.plan.specs.Good.{Sound};
ghost use Rattle.set_words.specs.Given.{Projection};
ghost use Rattle.tell.specs.Words.{words_figure};
ghost use Rattle.tell.specs.Answer.{bad_asked, tell_checks, told};
ghost use Rattle.tell.specs.Given.{Asked};

use crate::Told;
use crate::scores::mixed_words;
use crate::walk::{evidence, in_one_group};
use exact::fractions::{Fraction, reduced};
use exact::signed;
use rules::Refusal;
use sets::routines::{holds, is_set};

// Refusal 8: the column is not one of the m, the others are no set of them, or it is among them.
pub fn check_asked(m: usize, column: usize, others: &[usize]) -> Result<(), Refusal>
    ensures { result ≡ answered (refusal (bad_asked m column others.now ∷ [])) tt }
{
    if m <= column || !is_set(m, others) || holds(others, column) {
        return Err(Refusal::plain(8));
    }
    Ok(())
}

// The answer for some runs of a plan.
pub fn tell_answer(
    levels: &[u8],
    table: &[u8],
    runs: &[usize],
    column: usize,
    others: &[usize],
) -> Result<Told, Refusal>
    requires { Sound (plan levels.now table.now) runs.now }
    ensures { let p = plan levels.now table.now in
        let J = others.now in
        result ≡ answered (refusal (tell_checks p column J)) (told p runs.now column J) }
{
    check_asked(levels.len(), column, others)?;
    let joins = evidence(levels, table, runs, column, others);
    let tells = in_one_group(levels, table, runs, column, joins.groups);
    Ok(Told { tells, joins })
}

// The words of the column with every part of the others, times its level less one, over the square of the number of runs: below one the
// words alone say that the runs tell.
pub fn words_figure(
    levels: &[u8],
    table: &[u8],
    runs: &[usize],
    column: usize,
    others: &[usize],
) -> Fraction
    requires asked { Asked (plan levels.now table.now) runs.now column others.now × Projection (plan levels.now table.now) others.now }
    requires in_bounds { 1 ≤ length runs.now }
    ensures { let p = plan levels.now table.now in
        result ≡ words_figure (level p) (entry p) runs.now column others.now }
{
    let mixed = signed::to_u64(mixed_words(levels, table, runs, column, others));
    let lower = levels[column] as u64 - 1;
    let n = runs.len() as u64;
    reduced(lower * mixed, n * n)
}
