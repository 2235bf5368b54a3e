// For our own crates: R and the ratios of some runs of a plan, and what the answers are made of. The runs that stand are such a list.
ghost use Rattle.std.specs.Prelude.{◌≡◌, ◌≤◌, length};
ghost use Rattle.rules.specs.Plan.{plan, columns, level, entry, every_run, every_column, most_columns};
ghost use Rattle.rules.specs.Refusals.{refusal, answered, of_plan};
ghost use Rattle.sets.specs.Sets.{sets_of};
ghost use Rattle.parts.specs.Parts.{NoneShorter};
ghost use Rattle.set_words.specs.Given.{Tabled};
ghost use Rattle.ratios.specs.Ratios.{ratios_of};
ghost use Rattle.resolution.specs.Resolution.{resolution_checks};
ghost use Rattle.resolution.specs.Charts.{column_checks};
ghost use Rattle.resolution.specs.Given.{Measured, word_in, first_above, measures};

use exact::fractions::Fraction;
use plan::routines::several_levels;
use ratios::{Ratios, ratios_of};
use rules::Refusal;
use rules::sizes::MOST_COLUMNS;

// What every answer is made of: the columns m, the pairs n², R, the words W_R and W_(R+1), the largest ratio and a column's.
#[derive(Clone, Copy)]
pub struct Rating {
    pub columns: usize,
    pub pairs: u64,
    pub resolution: usize,
    pub word: i64,
    pub next: i64,
    pub largest: Fraction,
    pub held: Fraction,
}

// The first length whose word is above zero, and m + 1 where there is none.
pub fn resolution(words: &[i64; 24], m: usize) -> usize
    requires { m ≤ most_columns }
    ensures { result ≡ first_above words.now m }
{
    for (k, word) in words[..m].iter().enumerate() {
        if 0 < *word {
            return k + 1;
        }
    }
    m + 1 // no word is above zero
}

// The largest ratio of the sets of `size` columns, which have no shorter word, and of those that hold the column. A set with a column of one level has the ratio zero, which is never the greater: such sets are not walked.
pub fn largest_ratios(
    levels: &[u8],
    table: &[u8],
    runs: &[usize],
    size: usize,
    column: usize,
) -> Ratios
    requires tabled { Tabled (plan levels.now table.now) runs.now × ((1 ≤ size) × (size ≤ length levels.now)) }
    requires fact { let p = plan levels.now table.now in NoneShorter (level p) (entry p) runs.now (every_column p) size }
    ensures { let p = plan levels.now table.now in result ≡ ratios_of p runs.now (sets_of (columns p) size) column }
{
    let several = several_levels(levels);
    ratios_of(levels, table, runs, several.as_slice(), size, column)
}

// The word of length j; no set has more than 24 columns, so that a greater length has the word zero.
fn word_at(words: &[i64; 24], j: usize) -> i64
    requires { 1 ≤ j }
    ensures { result ≡ word_in words.now j }
{
    if j <= MOST_COLUMNS { words[j - 1] } else { 0 }
}

// The measures of the runs, whose words these are; 11 where they have no R.
fn rate(
    levels: &[u8],
    table: &[u8],
    runs: &[usize],
    words: &[i64; 24],
    column: usize,
) -> Result<Rating, Refusal>
    requires { Measured (plan levels.now table.now) runs.now words.now }
    ensures { let p = plan levels.now table.now in let rs = runs.now in
        result ≡ answered (refusal (resolution_checks p rs)) (measures p rs column) }
{
    let m = levels.len();
    let size = resolution(words, m);
    if m < size {
        return Err(Refusal::plain(11));
    }
    let ratios = largest_ratios(levels, table, runs, size, column);
    let n = runs.len() as u64;
    Ok(Rating {
        columns: m,
        pairs: n * n,
        resolution: size,
        word: word_at(words, size),
        next: word_at(words, size + 1),
        largest: ratios.largest,
        held: ratios.held,
    })
}

// The same, and before it 8 of the column.
pub fn rate_answer(
    levels: &[u8],
    table: &[u8],
    runs: &[usize],
    words: &[i64; 24],
    column: usize,
) -> Result<Rating, Refusal>
    requires { Measured (plan levels.now table.now) runs.now words.now }
    ensures { let p = plan levels.now table.now in let rs = runs.now in
        result ≡ answered (refusal (column_checks p rs column)) (measures p rs column) }
{
    if levels.len() <= column {
        return Err(Refusal::plain(8));
    }
    rate(levels, table, runs, words, column)
}

// The rating of every run of a plan, behind its checks.
pub(crate) fn rate_plan(levels: &[u8], table: &[u8], column: usize) -> Result<Rating, Refusal>
    ensures { let p = plan levels.now table.now in let rs = every_run p in
        result ≡ answered (refusal (of_plan p (column_checks p rs column))) (measures p rs column) }
{
    let runs = plan::routines::checked_runs(levels, table)?;
    let words = words::routines::words_of_plan(levels, table);
    rate_answer(levels, table, runs.as_slice(), &words, column)
}
