// Resolution, the largest ratio, generalized resolution and chart figures (document 01, "Strength, resolution, projections").
#![tactic(auto)]

ghost use Rattle.std.specs.Prelude.{◌≡◌};
ghost use Rattle.rules.specs.Plan.{plan, every_run};
ghost use Rattle.rules.specs.Refusals.{of_plan};
ghost use Rattle.resolution.specs.Resolution.{resolution_answer, generalized_answer};
ghost use Rattle.resolution.specs.Charts.{chart_answer, figure_answer};

use exact::fractions::Fraction;
use rules::Refusal;

pub mod answers;
pub mod numbers;
pub mod routines;

// R, the largest ratio, and GR in thousandths.
#[derive(Clone, Copy)]
pub struct GeneralizedResolution {
    pub resolution: usize,
    pub ratio: Fraction,
    pub thousandths: u64,
}

// For charts: the word at the resolution, the next word, the largest ratio.
#[derive(Clone, Copy)]
pub struct Chart {
    pub word: f64,
    pub next: f64,
    pub ratio: f64,
}

// R, the smallest length from 1 whose word is above zero.
pub fn resolution(levels: &[u8], table: &[u8]) -> Result<usize, Refusal>
    ensures { let p = plan levels.now table.now in result ≡ resolution_answer p (every_run p) (of_plan p) }
{
    let words = words::words(levels, table)?;
    answers::resolution_answer(&words, levels.len())
}

// R, the largest ratio, and GR in thousandths. No answer but a column's asks for a column; column 0 is one of every accepted plan.
pub fn generalized(levels: &[u8], table: &[u8]) -> Result<GeneralizedResolution, Refusal>
    ensures { let p = plan levels.now table.now in result ≡ generalized_answer p (every_run p) (of_plan p) }
{
    let rating = routines::rate_plan(levels, table, 0)?;
    Ok(answers::generalized_of(rating))
}

// The three chart figures.
pub fn charted(levels: &[u8], table: &[u8]) -> Result<Chart, Refusal>
    ensures { let p = plan levels.now table.now in result ≡ chart_answer p (every_run p) (of_plan p) }
{
    let rating = routines::rate_plan(levels, table, 0)?;
    Ok(answers::chart_of(rating))
}

// A column's chart figure: its ratio, and none where that is zero, which is clear.
pub fn column_figure(levels: &[u8], table: &[u8], column: usize) -> Result<Option<f64>, Refusal>
    ensures { let p = plan levels.now table.now in result ≡ figure_answer p (every_run p) (of_plan p) column }
{
    let rating = routines::rate_plan(levels, table, column)?;
    Ok(answers::figure_of(rating))
}
