// The words of a column with every part of others, added up, from its scores for the pairs of runs in one cell.
ghost use Rattle.std.specs.Prelude.{◌≡◌, [], ◌∷◌, ◌+◌, ◌≤◌, ◌<◌, length, get_or, drop};
ghost use Rattle.exact.specs.Lists.{sum};
ghost use Rattle.rules.specs.Plan.{plan, level, entry};
ghost use Rattle.set_words.specs.Given.{Projection};
ghost use Rattle.tell.specs.Words.{mixed_words};
ghost use Rattle.tell.specs.Given.{Asked, cell_score};

use crate::walk::{agree, level_of};
use counts::routines::product_of;
use exact::signed;
use rules::sizes::HIGHEST_PRODUCT;

// The score of the column for the runs f and g where they are in one cell, and else zero.
fn cell_score(
    levels: &[u8],
    table: &[u8],
    f: usize,
    g: usize,
    column: usize,
    others: &[usize],
) -> i64
    requires { Asked (plan levels.now table.now) (f ∷ g ∷ []) column others.now }
    ensures { result ≡ cell_score (plan levels.now table.now) column others.now f g }
{
    if !agree(levels, table, f, g, others) {
        return 0;
    }
    let x = level_of(levels, table, f, column);
    let y = level_of(levels, table, g, column);
    pairs::routines::score(levels[column], x, y)
}

// Those of the run at place `at` with each later run, added up.
fn later_scores(
    levels: &[u8],
    table: &[u8],
    runs: &[usize],
    at: usize,
    column: usize,
    others: &[usize],
) -> i64
    requires { Asked (plan levels.now table.now) runs.now column others.now × (at < length runs.now) }
    ensures { let p = plan levels.now table.now in
        result ≡ sum (drop (at + 1) runs.now) (cell_score p column others.now (get_or runs.now at 0)) }
{
    let f = runs[at];
    let mut total: i64 = 0;
    for k in (at + 1..runs.len()).rev() {
        total = signed::add(cell_score(levels, table, f, runs[k], column, others), total);
    }
    total
}

// Those of all ordered pairs, added up: each pair of different runs once, counted double, and the pairs of a run with itself.
fn cell_scores(levels: &[u8], table: &[u8], runs: &[usize], column: usize, others: &[usize]) -> i64
    requires { Asked (plan levels.now table.now) runs.now column others.now }
    ensures { let p = plan levels.now table.now in
        result ≡ sum runs.now (λ f. sum runs.now (cell_score p column others.now f)) }
{
    let own = pairs::routines::score(levels[column], 0, 0);
    let mut total: i64 = 0;
    for k in (0..runs.len()).rev() {
        let later = later_scores(levels, table, runs, k, column, others);
        total = signed::add(signed::add(total, signed::mul(2, later)), own);
    }
    total
}

// The words of the column with every part of the others, the empty one too: each pair in one cell counts for as many parts of them as the
// others have combinations.
pub(crate) fn mixed_words(
    levels: &[u8],
    table: &[u8],
    runs: &[usize],
    column: usize,
    others: &[usize],
) -> i64
    requires { Asked (plan levels.now table.now) runs.now column others.now × Projection (plan levels.now table.now) others.now }
    ensures { let p = plan levels.now table.now in
        result ≡ mixed_words (level p) (entry p) runs.now column others.now }
{
    let product = product_of(levels, others, HIGHEST_PRODUCT as usize);
    let scores = cell_scores(levels, table, runs, column, others);
    signed::mul(signed::of_size(product), scores)
}
