// For our own crates: the largest ratio of the sets of R columns of a plan. One walk over the sets: those that begin with the same columns
// share the runs' numbers in these columns.
#![tactic(auto)]

ghost use Rattle.std.specs.Prelude.{◌≡◌, [], ◌++◌, map, ◌+◌, ◌*◌, ◌≤◌, length, take};
ghost use Rattle.exact.specs.Lists.{filled_to};
ghost use Rattle.exact.specs.Fractions.{ShortDenominator};
ghost use Rattle.rules.specs.Plan.{plan, level, entry, most_columns};
ghost use Rattle.sets.specs.Sets.{choose};
ghost use Rattle.parts.specs.Parts.{turned, NoneShorter};
ghost use Rattle.set_words.specs.Given.{Projection, Tabled};
ghost use Rattle.ratios.specs.Ratios.{greater, ratios_of};
ghost use Rattle.set_ratios.specs.Given.{Empty, numbers_in};
ghost use Rattle.ratios.specs.Given.{with_ratio, further, ShortRatios, Walking};

use exact::fractions::{Fraction, Verdict, smaller_fraction};
use parts::{longer, turn_columns};
use sets::routines::holds;

// The largest ratio of some sets of columns, and that of those among them that hold one column.
#[derive(Clone, Copy)]
pub struct Ratios {
    pub largest: Fraction,
    pub held: Fraction,
}

// The greater of two fractions; of equal ones the first.
fn greater(x: Fraction, y: Fraction) -> Fraction
    requires { (ShortDenominator x) × (ShortDenominator y) }
    ensures { result ≡ greater x y }
{
    if smaller_fraction(x, y) == Verdict::Better {
        y
    } else {
        x
    }
}

// The ratios with one more, of a set that holds the column or not.
fn with_ratio(best: Ratios, ratio: Fraction, holding: bool) -> Ratios
    requires { ShortRatios best × ShortDenominator ratio }
    ensures { result ≡ with_ratio best ratio holding }
{
    let most = best.largest;
    let most_held = best.held;
    let largest = greater(most, ratio);
    if holding {
        let held = greater(most_held, ratio);
        return Ratios { largest, held };
    }
    Ratios {
        largest,
        held: most_held,
    }
}

// The ratios with those of the sets that have the columns taken and one more, of the columns `rest`.
fn last_columns(
    levels: &[u8],
    table: &[u8],
    runs: &[usize],
    rest: &[usize],
    digits: &[u8],
    set: [usize; 24],
    depth: usize,
    numbers: &[u16],
    column: usize,
    best: Ratios,
    counters: &mut [u16],
) -> Ratios
    requires walking { Walking (plan levels.now table.now) runs.now (take depth set) rest.now 1 × ((depth + 1 ≤ 24) × (length set ≡ 24)) }
    requires numbers_value { (numbers.now ≡ numbers_in (plan levels.now table.now) runs.now (take depth set))
        × (digits.now ≡ turned (entry (plan levels.now table.now)) runs.now rest.now) }
    requires short_ratios { ShortRatios best × Empty runs.now counters.old }
    ensures ratios { result ≡ further (plan levels.now table.now) runs.now column best
        (map (λ I. take depth set ++ I) (choose 1 rest.now)) }
    ensures counters { counters.new ≡ counters.old }
{
    let n = numbers.len();
    let mut with = set;
    let mut ratios = best;
    for (k, i) in rest.iter().enumerate() {
        with[depth] = *i;
        let columns = &with[..depth + 1];
        let ratio = set_ratios::ratio(
            levels,
            table,
            runs,
            columns,
            numbers,
            levels[*i],
            &digits[k * n..],
            counters,
        );
        ratios = with_ratio(ratios, ratio, holds(columns, column));
    }
    ratios
}

// The ratios with those of the sets that begin with the columns taken and have `left` more of the columns `rest`.
fn walk(
    levels: &[u8],
    table: &[u8],
    runs: &[usize],
    rest: &[usize],
    digits: &[u8],
    left: usize,
    set: [usize; 24],
    depth: usize,
    numbers: &[u16],
    column: usize,
    best: Ratios,
    counters: &mut [u16],
) -> Ratios
    requires walking { Walking (plan levels.now table.now) runs.now (take depth set) rest.now left
        × ((1 ≤ left) × ((depth + left ≤ 24) × (length set ≡ 24))) }
    requires numbers_value { (numbers.now ≡ numbers_in (plan levels.now table.now) runs.now (take depth set))
        × (digits.now ≡ turned (entry (plan levels.now table.now)) runs.now rest.now) }
    requires short_ratios { ShortRatios best × Empty runs.now counters.old }
    ensures ratios { result ≡ further (plan levels.now table.now) runs.now column best
        (map (λ I. take depth set ++ I) (choose left rest.now)) }
    ensures counters { counters.new ≡ counters.old }
{
    if left == 1 {
        return last_columns(
            levels, table, runs, rest, digits, set, depth, numbers, column, best, counters,
        );
    }
    if rest.len() < left {
        return best;
    }
    let n = numbers.len();
    let i = rest[0];
    let longer = longer(numbers, levels[i], digits);
    let prefix = &longer[..n];
    let mut with = set;
    with[depth] = i;
    let others = &rest[1..];
    let behind = &digits[n..];
    let passed = walk(
        levels,
        table,
        runs,
        others,
        behind,
        left - 1,
        with,
        depth + 1,
        prefix,
        column,
        best,
        counters,
    );
    walk(
        levels, table, runs, others, behind, left, set, depth, numbers, column, passed, counters,
    )
}

// The largest ratio of the sets of `size` of these columns, and of those that hold the column, in lent rooms: an empty one for the runs'
// entries, and counters.
fn ratios_in(
    levels: &[u8],
    table: &[u8],
    runs: &[usize],
    columns: &[usize],
    size: usize,
    column: usize,
    digits: &mut [u8],
    counters: &mut [u16],
) -> Ratios
    requires tabled { Tabled (plan levels.now table.now) runs.now
        × (Projection (plan levels.now table.now) columns.now × (length columns.now ≤ most_columns)) }
    requires le_size { (1 ≤ size) × (size ≤ most_columns) }
    requires fact { let p = plan levels.now table.now in NoneShorter (level p) (entry p) runs.now columns.now size }
    requires runs_in_bounds { (most_columns * length runs.now ≤ length digits.old) × (digits.old ≡ filled_to (length digits.old) 0 []) }
    requires empty { Empty runs.now counters.old }
    ensures { let p = plan levels.now table.now in
        result ≡ ratios_of p runs.now (choose size columns.now) column }
{
    let n = runs.len();
    let entries = columns.len() * n;
    turn_columns(levels, table, runs, columns, digits);
    let numbers = [0u16; 256];
    let none = Ratios {
        largest: Fraction { num: 0, den: 1 },
        held: Fraction { num: 0, den: 1 },
    };
    walk(
        levels,
        table,
        runs,
        columns,
        &digits[..entries],
        size,
        [0; 24],
        0,
        &numbers[..n],
        column,
        none,
        counters,
    )
}

// The same, in rooms of so many digits and counters.
fn in_rooms<const DIGITS: usize, const COUNTERS: usize>(
    levels: &[u8],
    table: &[u8],
    runs: &[usize],
    columns: &[usize],
    size: usize,
    column: usize,
) -> Ratios
    requires tabled { Tabled (plan levels.now table.now) runs.now
        × (Projection (plan levels.now table.now) columns.now × (length columns.now ≤ most_columns)) }
    requires le_size { (1 ≤ size) × (size ≤ most_columns) }
    requires fact { let p = plan levels.now table.now in NoneShorter (level p) (entry p) runs.now columns.now size }
    requires digits_in_bounds { (most_columns * length runs.now ≤ DIGITS) × (DIGITS ≤ 6144) }
    requires counters_in_bounds { (16 * length runs.now ≤ COUNTERS) × (COUNTERS ≤ 4096) }
    ensures { let p = plan levels.now table.now in
        result ≡ ratios_of p runs.now (choose size columns.now) column }
{
    let mut digits = [0; DIGITS];
    let mut counters = [0; COUNTERS];
    ratios_in(
        levels,
        table,
        runs,
        columns,
        size,
        column,
        &mut digits,
        &mut counters,
    )
}

// The same of sets that have no shorter word. Up to 32 runs small rooms are enough.
pub fn ratios_of(
    levels: &[u8],
    table: &[u8],
    runs: &[usize],
    columns: &[usize],
    size: usize,
    column: usize,
) -> Ratios
    requires tabled { Tabled (plan levels.now table.now) runs.now
        × (Projection (plan levels.now table.now) columns.now × (length columns.now ≤ most_columns)) }
    requires le_size { (1 ≤ size) × (size ≤ most_columns) }
    requires fact { let p = plan levels.now table.now in NoneShorter (level p) (entry p) runs.now columns.now size }
    ensures { let p = plan levels.now table.now in
        result ≡ ratios_of p runs.now (choose size columns.now) column }
{
    if runs.len() <= 32 {
        return in_rooms::<768, 512>(levels, table, runs, columns, size, column);
    }
    in_rooms::<6144, 4096>(levels, table, runs, columns, size, column)
}
