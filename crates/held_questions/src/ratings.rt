// Resolution, the largest ratio, generalized resolution and chart figures of the standing runs.
ghost use Rattle.std.specs.Prelude.{◌≡◌};
ghost use Rattle.rules.specs.Refusals.{refusal, answered};
ghost use Rattle.resolution.specs.Charts.{chart_answer, column_checks, figure_answer};
ghost use Rattle.resolution.specs.Given.{measures};
ghost use Rattle.resolution.specs.Resolution.{generalized_answer, resolution_answer};
ghost use Rattle.held.specs.Held.{IsHeld, plan_in, standing_in, of_standing};
ghost use Rattle.held_questions.specs.Answers.{held_resolution, held_generalized, held_chart, held_figure};

use held::routines::standing_runs;
use held::{Answered, Held};
use resolution::routines::{Rating, rate_answer};
use resolution::{Chart, GeneralizedResolution, answers};
use rules::Refusal;

fn resolution_of(held: &Held) -> Result<usize, Refusal>
    requires { IsHeld held.now }
    ensures { let h = held.now in result ≡ resolution_answer (plan_in h) (standing_in h) (of_standing h) }
{
    standing_runs(held)?;
    answers::resolution_answer(&held.words, held.columns)
}

// R, the smallest length from 1 whose word is above zero.
#[tactic(auto, unfolding(crate::specs::Answers::held_resolution))]
pub fn resolution(held: Held) -> Answered<usize>
    requires { IsHeld held }
    ensures { result ≡ held_resolution held }
{
    let answer = resolution_of(&held);
    Answered { held, answer }
}

// The rating of the standing runs, whose words are held.
fn rate_held(held: &Held, column: usize) -> Result<Rating, Refusal>
    requires { IsHeld held.now }
    ensures { let p = plan_in held.now in let rs = standing_in held.now in
        result ≡ answered (refusal (of_standing held.now (column_checks p rs column))) (measures p rs column) }
{
    let runs = standing_runs(held)?;
    rate_answer(
        held.levels(),
        held.table(),
        runs.as_slice(),
        &held.words,
        column,
    )
}

// A plan with runs has a column 0, which this answer and the next do not look at.
fn generalized_of(held: &Held) -> Result<GeneralizedResolution, Refusal>
    requires { IsHeld held.now }
    ensures { let h = held.now in result ≡ generalized_answer (plan_in h) (standing_in h) (of_standing h) }
{
    Ok(answers::generalized_of(rate_held(held, 0)?))
}

// R, the largest ratio, and GR in thousandths.
#[tactic(auto, unfolding(crate::specs::Answers::held_generalized))]
pub fn generalized(held: Held) -> Answered<GeneralizedResolution>
    requires { IsHeld held }
    ensures { result ≡ held_generalized held }
{
    let answer = generalized_of(&held);
    Answered { held, answer }
}

fn chart_of(held: &Held) -> Result<Chart, Refusal>
    requires { IsHeld held.now }
    ensures { let h = held.now in result ≡ chart_answer (plan_in h) (standing_in h) (of_standing h) }
{
    Ok(answers::chart_of(rate_held(held, 0)?))
}

// The three chart figures.
#[tactic(auto, unfolding(crate::specs::Answers::held_chart))]
pub fn charted(held: Held) -> Answered<Chart>
    requires { IsHeld held }
    ensures { result ≡ held_chart held }
{
    let answer = chart_of(&held);
    Answered { held, answer }
}

fn figure_of(held: &Held, column: usize) -> Result<Option<f64>, Refusal>
    requires { IsHeld held.now }
    ensures { let h = held.now in result ≡ figure_answer (plan_in h) (standing_in h) (of_standing h) column }
{
    Ok(answers::figure_of(rate_held(held, column)?))
}

// A column's chart figure, and none where it is clear.
#[tactic(auto, unfolding(crate::specs::Answers::held_figure))]
pub fn column_figure(held: Held, column: usize) -> Answered<Option<f64>>
    requires { IsHeld held }
    ensures { result ≡ held_figure held column }
{
    let answer = figure_of(&held, column);
    Answered { held, answer }
}
