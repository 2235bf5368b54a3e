// For the tests: each question to a plan as a C function (tests/asked.h). It answers the refusal's number, 0 where there is none. The
// refusal's places and the numbers of the answer go to the lent rooms; in a refusal the numbers are zero.
#![tactic(auto)]

ghost use Rattle.std.specs.Prelude.{◌≡◌, [], None};
ghost use Rattle.std.specs.Result.{result_unwrap_or};
ghost use Rattle.exact.specs.Lists.{filled_to};
ghost use Rattle.rules.specs.Plan.{plan, every_run};
ghost use Rattle.rules.specs.Refusals.{of_plan, refusal_in};
ghost use Rattle.words.specs.Answers.{zeros, words_answer, row_sums_answer, diagonal_answer};
ghost use Rattle.counts.specs.Counts.{strength_answer};
ghost use Rattle.resolution.specs.Resolution.{resolution_answer};
ghost use Rattle.resolution.specs.Charts.{chart_answer, figure_answer};
ghost use Rattle.compare.specs.Compare.{compare_plans};
ghost use Rattle.advice.specs.Advice.{advice_answer, turns_answer};
ghost use Rattle.sets.specs.Sets.{place_answer, set_answer};
ghost use Rattle.asked.specs.Asked.{places_of, row_at, figures_of, case_of, ratio_in, numbers_of};

use numbers::{case_of, figures_of, in_row, numbers_of, ratio_in, row_at, told};

pub mod numbers;

// W_1, W_2, ..
pub fn asked_words(
    levels: &[u8],
    table: &[u8],
    words: &mut [i64; 24],
    places: &mut [usize; 2],
) -> u64
    ensures refused { let p = plan levels.now table.now in
        result ≡ (refusal_in (words_answer p (every_run p) (of_plan p))).number }
    ensures words { let p = plan levels.now table.now in
        words.new ≡ result_unwrap_or (words_answer p (every_run p) (of_plan p)) zeros }
    ensures places { let p = plan levels.now table.now in
        places.new ≡ places_of (refusal_in (words_answer p (every_run p) (of_plan p))) }
{
    let answer = words::words(levels, table);
    *words = answer.unwrap_or([0; 24]);
    told(&answer, places)
}

// The row sums of a run, or of a place without one.
pub fn asked_row_sums(
    levels: &[u8],
    table: &[u8],
    run: u8,
    sums: &mut [i64; 24],
    places: &mut [usize; 2],
) -> u64
    ensures refused { let p = plan levels.now table.now in
        result ≡ (refusal_in (row_sums_answer p (every_run p) (of_plan p))).number }
    ensures sums { let p = plan levels.now table.now in
        sums.new ≡ row_at (row_sums_answer p (every_run p) (of_plan p)) run }
    ensures places { let p = plan levels.now table.now in
        places.new ≡ places_of (refusal_in (row_sums_answer p (every_run p) (of_plan p))) }
{
    let answer = words::row_sums(levels, table);
    *sums = row_at(&answer, run);
    told(&answer, places)
}

// E_1, E_2, ..
pub fn asked_diagonal(levels: &[u8], sums: &mut [i64; 24], places: &mut [usize; 2]) -> u64
    ensures refused { result ≡ (refusal_in (diagonal_answer (plan levels.now []))).number }
    ensures sums { sums.new ≡ result_unwrap_or (diagonal_answer (plan levels.now [])) zeros }
    ensures places { places.new ≡ places_of (refusal_in (diagonal_answer (plan levels.now []))) }
{
    let answer = words::diagonal(levels);
    *sums = answer.unwrap_or([0; 24]);
    told(&answer, places)
}

// The strength.
pub fn asked_strength(
    levels: &[u8],
    table: &[u8],
    strength: &mut usize,
    places: &mut [usize; 2],
) -> u64
    ensures refused { let p = plan levels.now table.now in
        result ≡ (refusal_in (strength_answer p (every_run p) (of_plan p))).number }
    ensures strength { let p = plan levels.now table.now in
        strength.new ≡ result_unwrap_or (strength_answer p (every_run p) (of_plan p)) 0 }
    ensures places { let p = plan levels.now table.now in
        places.new ≡ places_of (refusal_in (strength_answer p (every_run p) (of_plan p))) }
{
    let answer = counts::strength(levels, table);
    *strength = answer.unwrap_or(0);
    told(&answer, places)
}

// R.
pub fn asked_resolution(
    levels: &[u8],
    table: &[u8],
    resolution: &mut usize,
    places: &mut [usize; 2],
) -> u64
    ensures refused { let p = plan levels.now table.now in
        result ≡ (refusal_in (resolution_answer p (every_run p) (of_plan p))).number }
    ensures resolution { let p = plan levels.now table.now in
        resolution.new ≡ result_unwrap_or (resolution_answer p (every_run p) (of_plan p)) 0 }
    ensures places { let p = plan levels.now table.now in
        places.new ≡ places_of (refusal_in (resolution_answer p (every_run p) (of_plan p))) }
{
    let answer = resolution::resolution(levels, table);
    *resolution = answer.unwrap_or(0);
    told(&answer, places)
}

// A_R, A_(R+1) and the largest ratio.
pub fn asked_chart(
    levels: &[u8],
    table: &[u8],
    figures: &mut [f64; 3],
    places: &mut [usize; 2],
) -> u64
    ensures refused { let p = plan levels.now table.now in
        result ≡ (refusal_in (chart_answer p (every_run p) (of_plan p))).number }
    ensures figures { let p = plan levels.now table.now in
        figures.new ≡ figures_of (chart_answer p (every_run p) (of_plan p)) }
    ensures places { let p = plan levels.now table.now in
        places.new ≡ places_of (refusal_in (chart_answer p (every_run p) (of_plan p))) }
{
    let answer = resolution::charted(levels, table);
    *figures = figures_of(answer);
    told(&answer, places)
}

// A column's figure: whether it has a ratio, and the ratio.
pub fn asked_figure(
    levels: &[u8],
    table: &[u8],
    column: usize,
    case: &mut u64,
    ratio: &mut f64,
    places: &mut [usize; 2],
) -> u64
    ensures refused { let p = plan levels.now table.now in
        result ≡ (refusal_in (figure_answer p (every_run p) (of_plan p) column)).number }
    ensures case { let p = plan levels.now table.now in
        case.new ≡ case_of (result_unwrap_or (figure_answer p (every_run p) (of_plan p) column) None) }
    ensures ratio { let p = plan levels.now table.now in
        ratio.new ≡ ratio_in (result_unwrap_or (figure_answer p (every_run p) (of_plan p) column) None) }
    ensures places { let p = plan levels.now table.now in
        places.new ≡ places_of (refusal_in (figure_answer p (every_run p) (of_plan p) column)) }
{
    let answer = resolution::column_figure(levels, table, column);
    let figure = answer.unwrap_or(None);
    *case = case_of(figure);
    *ratio = ratio_in(figure);
    told(&answer, places)
}

// Two plans compared: the case, and of a refusal the plan, the number and the places.
pub fn asked_comparison(
    levels1: &[u8],
    table1: &[u8],
    levels2: &[u8],
    table2: &[u8],
    numbers: &mut [u64; 5],
)
    ensures { numbers.new ≡
        numbers_of (compare_plans (plan levels1.now table1.now) (plan levels2.now table2.now)) }
{
    *numbers = numbers_of(compare::compare(levels1, table1, levels2, table2));
}

// The run advised for loss.
pub fn asked_advice(levels: &[u8], table: &[u8], run: &mut usize, places: &mut [usize; 2]) -> u64
    ensures refused { let p = plan levels.now table.now in
        result ≡ (refusal_in (advice_answer p (every_run p) (of_plan p))).number }
    ensures run { let p = plan levels.now table.now in
        run.new ≡ result_unwrap_or (advice_answer p (every_run p) (of_plan p)) 0 }
    ensures places { let p = plan levels.now table.now in
        places.new ≡ places_of (refusal_in (advice_answer p (every_run p) (of_plan p))) }
{
    let answer = advice::advice(levels, table);
    *run = answer.unwrap_or(0);
    told(&answer, places)
}

// The best k to lose, in turn.
pub fn asked_in_turn(
    levels: &[u8],
    table: &[u8],
    k: usize,
    runs: &mut [usize; 3],
    places: &mut [usize; 2],
) -> u64
    ensures refused { let p = plan levels.now table.now in
        result ≡ (refusal_in (turns_answer p (every_run p) (of_plan p) k)).number }
    ensures runs { let p = plan levels.now table.now in
        runs.new ≡ filled_to 3 0 (result_unwrap_or (turns_answer p (every_run p) (of_plan p) k) []) }
    ensures places { let p = plan levels.now table.now in
        places.new ≡ places_of (refusal_in (turns_answer p (every_run p) (of_plan p) k)) }
{
    let answer = advice::in_turn(levels, table, k);
    *runs = in_row(&answer);
    told(&answer, places)
}

// The place of a set of f of m columns.
pub fn asked_place(
    m: usize,
    f: usize,
    columns: &[usize],
    place: &mut usize,
    places: &mut [usize; 2],
) -> u64
    ensures refused { result ≡ (refusal_in (place_answer m f columns.now)).number }
    ensures place { place.new ≡ result_unwrap_or (place_answer m f columns.now) 0 }
    ensures places { places.new ≡ places_of (refusal_in (place_answer m f columns.now)) }
{
    let answer = sets::place(m, f, columns);
    *place = answer.unwrap_or(0);
    told(&answer, places)
}

// The set of f of m columns at a place.
pub fn asked_set_at(
    m: usize,
    f: usize,
    place: usize,
    columns: &mut [usize; 4],
    places: &mut [usize; 2],
) -> u64
    ensures refused { result ≡ (refusal_in (set_answer m f place)).number }
    ensures columns { columns.new ≡ filled_to 4 0 (result_unwrap_or (set_answer m f place) []) }
    ensures places { places.new ≡ places_of (refusal_in (set_answer m f place)) }
{
    let answer = sets::set_at(m, f, place);
    *columns = in_row(&answer);
    told(&answer, places)
}
