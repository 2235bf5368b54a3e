// Words of single sets of columns (document 01, "Strength, resolution, projections").
#![tactic(auto)]

ghost use Rattle.std.specs.Prelude.{◌≡◌};
ghost use Rattle.rules.specs.Plan.{plan, every_run};
ghost use Rattle.rules.specs.Refusals.{of_plan};
ghost use Rattle.set_words.specs.SetWords.{set_word_answer};

use rules::Refusal;

pub mod routines;

// How W(I) is worked out: from the pairs of runs, from the counts of level combinations, or as is faster.
#[derive(Clone, Copy)]
pub enum Engine {
    Pairs,
    Counts,
    Faster,
}

// W(I) of a set of f columns, by the engine that is named: the answer is the same.
pub fn set_word_by(
    levels: &[u8],
    table: &[u8],
    f: usize,
    columns: &[usize],
    engine: Engine,
) -> Result<i64, Refusal>
    ensures { let p = plan levels.now table.now in
        result ≡ set_word_answer p (every_run p) (of_plan p) f columns.now }
{
    let runs = plan::routines::checked_runs(levels, table)?;
    routines::set_word_answer(levels, table, runs.as_slice(), f, columns, engine)
}

// W(I) of a set of f columns.
pub fn set_word(levels: &[u8], table: &[u8], f: usize, columns: &[usize]) -> Result<i64, Refusal>
    ensures { let p = plan levels.now table.now in
        result ≡ set_word_answer p (every_run p) (of_plan p) f columns.now }
{
    set_word_by(levels, table, f, columns, Engine::Faster)
}
