// For the tests: the calls of `asked_projections` as C functions, each with the same contract.
#![tactic(auto)]

ghost use Rattle.std.specs.Prelude.{◌≡◌, true, false, pos, None};
ghost use Rattle.std.specs.Result.{result_unwrap_or};
ghost use Rattle.rules.specs.Plan.{plan};
ghost use Rattle.rules.specs.Refusals.{refusal_in};
ghost use Rattle.projection_tables.specs.Tables.{rooms};
ghost use Rattle.held_questions.specs.Answers.{held_set_word, held_table, held_rooms, held_resolution, held_generalized, held_chart, held_figure};
ghost use Rattle.asked.specs.Asked.{figures_of, case_of, ratio_in};
ghost use Rattle.asked_held.specs.Histories.{led};
ghost use Rattle.asked_projections.specs.Generalized.{generalized_numbers};

// W(I) of a set of f columns.
#[unsafe(no_mangle)]
pub extern "C" fn asked_held_set_word(
    levels: &[u8],
    table: &[u8],
    history: &[u64],
    f: usize,
    columns: &[usize],
    word: &mut i64,
) -> u64
    ensures refused { let h = led (plan levels.now table.now) history.now in
        result ≡ (refusal_in (held_set_word h f columns.now).answer).number }
    ensures word { let h = led (plan levels.now table.now) history.now in
        word.new ≡ result_unwrap_or (held_set_word h f columns.now).answer (pos 0) }
{
    asked_projections::asked_held_set_word(levels, table, history, f, columns, word)
}

// The table of W(I) / n² for size f: the number of its lines.
#[unsafe(no_mangle)]
pub extern "C" fn asked_held_absolute(
    levels: &[u8],
    table: &[u8],
    history: &[u64],
    f: usize,
    nums: &mut [u64],
    dens: &mut [u64],
    counts: &mut [u64],
    lines: &mut usize,
) -> u64
    ensures refused { let h = led (plan levels.now table.now) history.now in
        result ≡ (refusal_in (held_table h false f (rooms nums.old dens.old counts.old)).answer).number }
    ensures lines { let h = led (plan levels.now table.now) history.now in
        lines.new ≡ result_unwrap_or (held_table h false f (rooms nums.old dens.old counts.old)).answer 0 }
    ensures rooms { let h = led (plan levels.now table.now) history.now in
        rooms nums.new dens.new counts.new ≡
        held_rooms h false f (rooms nums.old dens.old counts.old) }
{
    asked_projections::asked_held_absolute(levels, table, history, f, nums, dens, counts, lines)
}

// The table of W(I) / (n²(s - 1)) for size f: the number of its lines.
#[unsafe(no_mangle)]
pub extern "C" fn asked_held_relative(
    levels: &[u8],
    table: &[u8],
    history: &[u64],
    f: usize,
    nums: &mut [u64],
    dens: &mut [u64],
    counts: &mut [u64],
    lines: &mut usize,
) -> u64
    ensures refused { let h = led (plan levels.now table.now) history.now in
        result ≡ (refusal_in (held_table h true f (rooms nums.old dens.old counts.old)).answer).number }
    ensures lines { let h = led (plan levels.now table.now) history.now in
        lines.new ≡ result_unwrap_or (held_table h true f (rooms nums.old dens.old counts.old)).answer 0 }
    ensures rooms { let h = led (plan levels.now table.now) history.now in
        rooms nums.new dens.new counts.new ≡
        held_rooms h true f (rooms nums.old dens.old counts.old) }
{
    asked_projections::asked_held_relative(levels, table, history, f, nums, dens, counts, lines)
}

// R.
#[unsafe(no_mangle)]
pub extern "C" fn asked_held_resolution(
    levels: &[u8],
    table: &[u8],
    history: &[u64],
    resolution: &mut usize,
) -> u64
    ensures refused { let h = led (plan levels.now table.now) history.now in
        result ≡ (refusal_in (held_resolution h).answer).number }
    ensures resolution { let h = led (plan levels.now table.now) history.now in
        resolution.new ≡ result_unwrap_or (held_resolution h).answer 0 }
{
    asked_projections::asked_held_resolution(levels, table, history, resolution)
}

// R, the largest ratio, and GR in thousandths.
#[unsafe(no_mangle)]
pub extern "C" fn asked_held_generalized(
    levels: &[u8],
    table: &[u8],
    history: &[u64],
    numbers: &mut [u64; 4],
) -> u64
    ensures refused { let h = led (plan levels.now table.now) history.now in
        result ≡ (refusal_in (held_generalized h).answer).number }
    ensures numbers { let h = led (plan levels.now table.now) history.now in
        numbers.new ≡ generalized_numbers (held_generalized h).answer }
{
    asked_projections::asked_held_generalized(levels, table, history, numbers)
}

// A_R, A_(R+1) and the largest ratio.
#[unsafe(no_mangle)]
pub extern "C" fn asked_held_chart(
    levels: &[u8],
    table: &[u8],
    history: &[u64],
    figures: &mut [f64; 3],
) -> u64
    ensures refused { let h = led (plan levels.now table.now) history.now in
        result ≡ (refusal_in (held_chart h).answer).number }
    ensures figures { let h = led (plan levels.now table.now) history.now in
        figures.new ≡ figures_of (held_chart h).answer }
{
    asked_projections::asked_held_chart(levels, table, history, figures)
}

// A column's figure: whether it has a ratio, and the ratio.
#[unsafe(no_mangle)]
pub extern "C" fn asked_held_figure(
    levels: &[u8],
    table: &[u8],
    history: &[u64],
    column: usize,
    case: &mut u64,
    ratio: &mut f64,
) -> u64
    ensures refused { let h = led (plan levels.now table.now) history.now in
        result ≡ (refusal_in (held_figure h column).answer).number }
    ensures case { let h = led (plan levels.now table.now) history.now in
        case.new ≡ case_of (result_unwrap_or (held_figure h column).answer None) }
    ensures ratio { let h = led (plan levels.now table.now) history.now in
        ratio.new ≡ ratio_in (result_unwrap_or (held_figure h column).answer None) }
{
    asked_projections::asked_held_figure(levels, table, history, column, case, ratio)
}
