// Scaled words and row sums of a plan (document 01, "Words").
#![tactic(auto)]

ghost use Rattle.std.specs.Prelude.{◌≡◌, []};
ghost use Rattle.rules.specs.Plan.{plan, every_run};
ghost use Rattle.rules.specs.Refusals.{of_plan};
ghost use Rattle.words.specs.Answers.{words_answer, word_answer, row_sums_answer, diagonal_answer};

use rules::Refusal;

pub mod routines;

// A number for each word length, length 1 first.
#[derive(Clone, Copy)]
pub struct Sums {
    pub sums: [i64; 24],
}

// The scaled words W_1, W_2, ..
pub fn words(levels: &[u8], table: &[u8]) -> Result<[i64; 24], Refusal>
    ensures { let p = plan levels.now table.now in result ≡ words_answer p (every_run p) (of_plan p) }
{
    plan::check(levels, table)?;
    Ok(routines::words_of_plan(levels, table))
}

// The scaled word of one length.
pub fn word(levels: &[u8], table: &[u8], length: usize) -> Result<i64, Refusal>
    ensures { let p = plan levels.now table.now in result ≡ word_answer p (every_run p) (of_plan p) length }
{
    plan::check(levels, table)?;
    routines::check_length(levels.len(), length)?;
    let words = routines::words_with::<168>(levels, table);
    Ok(words[length - 1])
}

// Every run's row sums, by run number.
pub fn row_sums(levels: &[u8], table: &[u8]) -> Result<[Sums; 256], Refusal>
    ensures { let p = plan levels.now table.now in result ≡ row_sums_answer p (every_run p) (of_plan p) }
{
    let runs = plan::routines::checked_runs(levels, table)?;
    Ok(routines::rows(levels, table, runs.as_slice()))
}

// E_1, E_2, .., of levels alone.
pub fn diagonal(levels: &[u8]) -> Result<[i64; 24], Refusal>
    ensures { result ≡ diagonal_answer (plan levels.now []) }
{
    plan::check_levels(levels)?;
    Ok(pairs::routines::diagonal(levels))
}
