// For the tests: questions to a held plan on sets of columns and on the resolution, as C functions (tests/asked.h), in the manner of `asked_held`.
#![tactic(auto)]

ghost use Rattle.std.specs.Prelude.{◌≡◌, true, false, pos, None};
ghost use Rattle.std.specs.Result.{result_unwrap_or};
ghost use Rattle.rules.specs.Plan.{plan};
ghost use Rattle.rules.specs.Refusals.{refusal_in};
ghost use Rattle.projection_tables.specs.Tables.{rooms};
ghost use Rattle.held_questions.specs.Answers.{
  held_set_word,
  held_table,
  held_rooms,
  held_resolution,
  held_generalized,
  held_chart,
  held_figure,
};
ghost use Rattle.asked.specs.Asked.{figures_of, case_of, ratio_in};
ghost use Rattle.asked_held.specs.Histories.{led};
ghost use Rattle.asked_projections.specs.Generalized.{generalized_numbers};

use asked::numbers::{case_of, figures_of, ratio_in, refusal_in};
use asked_held::history::led;
use resolution::GeneralizedResolution;
use rules::Refusal;

// W(I) of a set of f columns.
pub fn asked_held_set_word(
    levels: &[u8],
    table: &[u8],
    history: &[u64],
    f: usize,
    columns: &[usize],
    word: &mut i64,
) -> u64
    ensures refused { let h = led (plan levels.now table.now) history.now in
        result ≡ (refusal_in (held_set_word h f columns.now).answer).number }
    ensures word { let h = led (plan levels.now table.now) history.now in
        word.new ≡ result_unwrap_or (held_set_word h f columns.now).answer (pos 0) }
{
    let answer = held_questions::tables::set_word(led(levels, table, history), f, columns).answer;
    *word = answer.unwrap_or(0);
    refusal_in(&answer).number
}

// The table of W(I) / n² for size f: the number of its lines.
pub fn asked_held_absolute(
    levels: &[u8],
    table: &[u8],
    history: &[u64],
    f: usize,
    nums: &mut [u64],
    dens: &mut [u64],
    counts: &mut [u64],
    lines: &mut usize,
) -> u64
    ensures refused { let h = led (plan levels.now table.now) history.now in
        result ≡ (refusal_in (held_table h false f (rooms nums.old dens.old counts.old)).answer).number }
    ensures lines { let h = led (plan levels.now table.now) history.now in
        lines.new ≡ result_unwrap_or (held_table h false f (rooms nums.old dens.old counts.old)).answer 0 }
    ensures rooms { let h = led (plan levels.now table.now) history.now in
        rooms nums.new dens.new counts.new ≡
        held_rooms h false f (rooms nums.old dens.old counts.old) }
{
    let answer = held_questions::tables::absolute_table(
        led(levels, table, history),
        f,
        nums,
        dens,
        counts,
    ).answer;
    *lines = answer.unwrap_or(0);
    refusal_in(&answer).number
}

// The table of W(I) / (n²(s - 1)) for size f: the number of its lines.
pub fn asked_held_relative(
    levels: &[u8],
    table: &[u8],
    history: &[u64],
    f: usize,
    nums: &mut [u64],
    dens: &mut [u64],
    counts: &mut [u64],
    lines: &mut usize,
) -> u64
    ensures refused { let h = led (plan levels.now table.now) history.now in
        result ≡ (refusal_in (held_table h true f (rooms nums.old dens.old counts.old)).answer).number }
    ensures lines { let h = led (plan levels.now table.now) history.now in
        lines.new ≡ result_unwrap_or (held_table h true f (rooms nums.old dens.old counts.old)).answer 0 }
    ensures rooms { let h = led (plan levels.now table.now) history.now in
        rooms nums.new dens.new counts.new ≡
        held_rooms h true f (rooms nums.old dens.old counts.old) }
{
    let answer = held_questions::tables::relative_table(
        led(levels, table, history),
        f,
        nums,
        dens,
        counts,
    ).answer;
    *lines = answer.unwrap_or(0);
    refusal_in(&answer).number
}

// R.
pub fn asked_held_resolution(
    levels: &[u8],
    table: &[u8],
    history: &[u64],
    resolution: &mut usize,
) -> u64
    ensures refused { let h = led (plan levels.now table.now) history.now in
        result ≡ (refusal_in (held_resolution h).answer).number }
    ensures resolution { let h = led (plan levels.now table.now) history.now in
        resolution.new ≡ result_unwrap_or (held_resolution h).answer 0 }
{
    let answer = held_questions::ratings::resolution(led(levels, table, history)).answer;
    *resolution = answer.unwrap_or(0);
    refusal_in(&answer).number
}

// R, the largest ratio, and GR in thousandths, zeros in a refusal.
fn generalized_numbers(answer: Result<GeneralizedResolution, Refusal>) -> [u64; 4]
    ensures { result ≡ generalized_numbers answer }
{
    match answer {
        Ok(found) => [
            found.resolution as u64,
            found.ratio.num,
            found.ratio.den,
            found.thousandths,
        ],
        Err(_) => [0; 4],
    }
}

// R, the largest ratio, and GR in thousandths.
pub fn asked_held_generalized(
    levels: &[u8],
    table: &[u8],
    history: &[u64],
    numbers: &mut [u64; 4],
) -> u64
    ensures refused { let h = led (plan levels.now table.now) history.now in
        result ≡ (refusal_in (held_generalized h).answer).number }
    ensures numbers { let h = led (plan levels.now table.now) history.now in
        numbers.new ≡ generalized_numbers (held_generalized h).answer }
{
    let answer = held_questions::ratings::generalized(led(levels, table, history)).answer;
    *numbers = generalized_numbers(answer);
    refusal_in(&answer).number
}

// A_R, A_(R+1) and the largest ratio.
pub fn asked_held_chart(levels: &[u8], table: &[u8], history: &[u64], figures: &mut [f64; 3]) -> u64
    ensures refused { let h = led (plan levels.now table.now) history.now in
        result ≡ (refusal_in (held_chart h).answer).number }
    ensures figures { let h = led (plan levels.now table.now) history.now in
        figures.new ≡ figures_of (held_chart h).answer }
{
    let answer = held_questions::ratings::charted(led(levels, table, history)).answer;
    *figures = figures_of(answer);
    refusal_in(&answer).number
}

// A column's figure: whether it has a ratio, and the ratio.
pub fn asked_held_figure(
    levels: &[u8],
    table: &[u8],
    history: &[u64],
    column: usize,
    case: &mut u64,
    ratio: &mut f64,
) -> u64
    ensures refused { let h = led (plan levels.now table.now) history.now in
        result ≡ (refusal_in (held_figure h column).answer).number }
    ensures case { let h = led (plan levels.now table.now) history.now in
        case.new ≡ case_of (result_unwrap_or (held_figure h column).answer None) }
    ensures ratio { let h = led (plan levels.now table.now) history.now in
        ratio.new ≡ ratio_in (result_unwrap_or (held_figure h column).answer None) }
{
    let answer = held_questions::ratings::column_figure(led(levels, table, history), column).answer;
    let figure = answer.unwrap_or(None);
    *case = case_of(figure);
    *ratio = ratio_in(figure);
    refusal_in(&answer).number
}
