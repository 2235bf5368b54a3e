// For our own crates: counts over some runs of a plan, which each caller has shown to be sound.
ghost use Rattle.std.specs.Prelude.{◌≡◌, [], ◌∷◌, ◌+◌, ◌≤◌, min, eqb, length};
ghost use Rattle.std.specs.List.{list_all};
ghost use Rattle.exact.specs.Lists.{alike};
ghost use Rattle.rules.specs.Plan.{plan, level, entry, every_column, most_columns, most_runs, highest_product};
ghost use Rattle.plan.specs.Good.{Sound};
ghost use Rattle.counts.specs.Counts.{even, balanced, strength};
ghost use Rattle.counts.specs.Numbered.{product_of, number_of, tallies, Columns};

use next_sets::{among, first_set, next_set};
use plan::routines::several_levels;
use sets::routines::binomial;

// How many combinations the columns have, the product of their levels; limit + 1 where that is above limit.
pub fn product_of(levels: &[u8], columns: &[usize], limit: usize) -> usize
    requires columns { Columns levels.now columns.now }
    requires limit_le_highest_product { limit ≤ highest_product }
    ensures { result ≡ min (product_of (level (plan levels.now [])) columns.now) (limit + 1) }
{
    let mut product = 1;
    for i in columns {
        product *= usize::from(levels[*i]);
        if limit < product {
            return limit + 1;
        }
    }
    product
}

// The number of the combination that the run has in the columns: its entries as digits, the first column's the most significant.
pub fn combination(levels: &[u8], table: &[u8], run: usize, columns: &[usize]) -> usize
    requires sound { Sound (plan levels.now table.now) (run ∷ []) }
    requires columns { Columns levels.now columns.now }
    requires columns_bound { product_of (level (plan levels.now table.now)) columns.now ≤ highest_product }
    ensures { let p = plan levels.now table.now in result ≡ number_of (level p) (entry p) run columns.now }
{
    let start = run * levels.len();
    let mut number = 0;
    for i in columns {
        number = number * usize::from(levels[*i]) + usize::from(table[start + *i]);
    }
    number
}

// Whether each of the counts is this one.
fn are(counts: &[u16], times: u16) -> bool
    ensures { result ≡ list_all (λ count. eqb times count) counts.now }
{
    counts.iter().all(|count| times == *count)
}

// Whether the counts are all equal.
pub fn are_alike(counts: &[u16]) -> bool
    ensures { result ≡ alike counts.now }
{
    match counts {
        [] => true,
        [first, others @ ..] => are(others, *first),
    }
}

// How often each combination of the columns occurs, by its number.
pub fn tallies(levels: &[u8], table: &[u8], runs: &[usize], columns: &[usize]) -> [u16; 256]
    requires sound { Sound (plan levels.now table.now) runs.now }
    requires columns { Columns levels.now columns.now }
    requires columns_bound { product_of (level (plan levels.now table.now)) columns.now ≤ most_runs }
    ensures { result ≡ tallies (plan levels.now table.now) runs.now columns.now }
{
    let mut counters = [0u16; 256];
    for run in runs {
        let number = combination(levels, table, *run, columns);
        counters[number] += 1;
    }
    counters
}

// Whether all level combinations of the columns occur equally often. With more combinations than runs they cannot.
pub fn is_even(levels: &[u8], table: &[u8], runs: &[usize], columns: &[usize]) -> bool
    requires sound { Sound (plan levels.now table.now) runs.now }
    requires in_bounds { 1 ≤ length runs.now }
    requires columns { Columns levels.now columns.now }
    ensures { let p = plan levels.now table.now in result ≡ even (level p) (entry p) runs.now columns.now }
{
    let n = runs.len();
    let product = product_of(levels, columns, n);
    if n < product {
        return false;
    }
    let counters = tallies(levels, table, runs, columns);
    are_alike(&counters[..product])
}

// Whether that is so in every choice of t of these columns. The walk over the sets ends at the first that is not even.
pub fn is_balanced(levels: &[u8], table: &[u8], runs: &[usize], columns: &[usize], t: usize) -> bool
    requires sound { Sound (plan levels.now table.now) runs.now }
    requires in_bounds { 1 ≤ length runs.now }
    requires columns { Columns levels.now columns.now }
    requires columns_len_bound { (length columns.now ≤ most_columns) × (t ≤ length columns.now) }
    ensures { let p = plan levels.now table.now in
        result ≡ balanced (level p) (entry p) runs.now columns.now t }
{
    let m = columns.len();
    let many = binomial(m, t);
    let mut places = [0usize; 24];
    let mut set = [0usize; 24];
    first_set(&mut places, t);
    for k in 0..many {
        among(columns, &places[..t], &mut set);
        if !is_even(levels, table, runs, &set[..t]) {
            return false;
        }
        next_set(&mut places, t, m);
    }
    true
}

// The largest t for which that is so. A set with more combinations than runs ends its walk at once, so that a high t costs one set.
pub fn strength_of(levels: &[u8], table: &[u8], runs: &[usize], columns: &[usize]) -> usize
    requires sound { Sound (plan levels.now table.now) runs.now }
    requires in_bounds { 1 ≤ length runs.now }
    requires columns { Columns levels.now columns.now }
    requires columns_len_bound { length columns.now ≤ most_columns }
    ensures { let p = plan levels.now table.now in
        result ≡ strength (level p) (entry p) runs.now columns.now }
{
    for t in (1..=columns.len()).rev() {
        if is_balanced(levels, table, runs, columns, t) {
            return t;
        }
    }
    0
}

// The strength of all columns. Those of one level are even with any others: they are left out of the search, and count where all others pass.
pub fn strength(levels: &[u8], table: &[u8], runs: &[usize]) -> usize
    requires sound { Sound (plan levels.now table.now) runs.now }
    requires in_bounds { 1 ≤ length runs.now }
    ensures { let p = plan levels.now table.now in result ≡ strength (level p) (entry p) runs.now (every_column p) }
{
    let columns = several_levels(levels);
    let found = strength_of(levels, table, runs, columns.as_slice());
    if found == columns.len() {
        return levels.len();
    }
    found
}
