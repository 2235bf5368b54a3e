// For our own crates: W(I) and its value over some runs of a plan, each named by its number. The runs that stand are such a list.
ghost use Rattle.std.specs.Prelude.{◌≡◌, [], map, ◌+◌, ◌*◌, ◌≤◌, ◌<◌, length, get_or, take, pos, nat_abs, ◌≤ℤ◌};
ghost use Rattle.exact.specs.Lists.{sum, smallest};
ghost use Rattle.exact.specs.Fractions.{reduced};
ghost use Rattle.rules.specs.Plan.{plan, level, entry, most_runs, highest_level};
ghost use Rattle.rules.specs.Refusals.{refusal, answered};
ghost use Rattle.plan.specs.Good.{Sound};
ghost use Rattle.words.specs.Words.{word_of};
ghost use Rattle.parts.specs.Parts.{counted};
ghost use Rattle.set_words.specs.Given.{Projection, Starts, Tabled, SomeColumns, score_product, pair_of, over_pairs};
ghost use Rattle.set_words.specs.SetWords.{value_in, set_word_checks};

use crate::Engine;
use exact::fractions::{Fraction, reduced};
use exact::signed;
use rules::Refusal;

// Up to so many columns there is a counter for every combination.
const MOST_COUNTED: usize = 4;

// Below so many runs one word is quicker by pairs, since the counters have to be made for it.
const FEW_RUNS: usize = 48;

// The product of the scores in the columns, for the runs that start at places a and b of the table.
fn pair_product(levels: &[u8], table: &[u8], a: usize, b: usize, columns: &[usize]) -> i64
    requires { let p = plan levels.now table.now in
        Projection p columns.now × (Starts p columns.now a × Starts p columns.now b) }
    ensures { result ≡ score_product (plan levels.now table.now) columns.now a b }
{
    let mut product: i64 = 1;
    for i in columns {
        let score = pairs::routines::score(levels[*i], table[a + *i], table[b + *i]);
        product = signed::mul(product, score);
    }
    product
}

// The products of the run at place `at` with each earlier run, added up.
fn earlier_products(
    levels: &[u8],
    table: &[u8],
    runs: &[usize],
    at: usize,
    columns: &[usize],
) -> i64
    requires { Sound (plan levels.now table.now) runs.now
        × (Projection (plan levels.now table.now) columns.now × (at < length runs.now)) }
    ensures { let p = plan levels.now table.now in
        result ≡ sum (take at runs.now) (pair_of p columns.now (get_or runs.now at 0)) }
{
    let m = levels.len();
    let a = runs[at] * m;
    let earlier = &runs[..at];
    let mut total: i64 = 0;
    for run in earlier {
        let b = *run * m;
        total = signed::add(total, pair_product(levels, table, a, b, columns));
    }
    total
}

// W(I) of the runs by pairs: each pair of different runs once, counted double, and the pairs of a run with itself.
pub fn word_by_pairs(levels: &[u8], table: &[u8], runs: &[usize], columns: &[usize]) -> i64
    requires { Sound (plan levels.now table.now) runs.now × Projection (plan levels.now table.now) columns.now }
    ensures { let p = plan levels.now table.now in
        result ≡ word_of (level p) (entry p) runs.now columns.now }
{
    let m = levels.len();
    let mut word: i64 = 0;
    for (k, run) in runs.iter().enumerate() {
        let earlier = earlier_products(levels, table, runs, k, columns);
        let a = *run * m;
        let own = pair_product(levels, table, a, a, columns);
        word = signed::add(signed::add(word, signed::mul(2, earlier)), own);
    }
    word
}

// W(I) of the runs by counts, for up to 4 columns. The counters are made for it.
fn word_by_counts(levels: &[u8], table: &[u8], runs: &[usize], columns: &[usize]) -> i64
    requires { Sound (plan levels.now table.now) runs.now
        × (Projection (plan levels.now table.now) columns.now × (length columns.now ≤ 4)) }
    ensures { let p = plan levels.now table.now in
        result ≡ word_of (level p) (entry p) runs.now columns.now }
{
    let mut counters = [0u16; 65536];
    parts::word(levels, table, runs, columns, &mut counters)
}

// W(I) of the runs by the engine that is faster: by counts from so many runs on that the counters are worth making.
pub fn set_word(levels: &[u8], table: &[u8], runs: &[usize], columns: &[usize]) -> i64
    requires { Sound (plan levels.now table.now) runs.now × Projection (plan levels.now table.now) columns.now }
    ensures { let p = plan levels.now table.now in
        result ≡ word_of (level p) (entry p) runs.now columns.now }
{
    if MOST_COUNTED < columns.len() || runs.len() < FEW_RUNS {
        return word_by_pairs(levels, table, runs, columns);
    }
    word_by_counts(levels, table, runs, columns)
}

// W(I) of the runs, by the engine that is named.
fn word_by(levels: &[u8], table: &[u8], runs: &[usize], columns: &[usize], engine: Engine) -> i64
    requires { Sound (plan levels.now table.now) runs.now
        × (Projection (plan levels.now table.now) columns.now × (length columns.now ≤ 4)) }
    ensures { let p = plan levels.now table.now in
        result ≡ word_of (level p) (entry p) runs.now columns.now }
{
    match engine {
        Engine::Pairs => word_by_pairs(levels, table, runs, columns),
        Engine::Counts => word_by_counts(levels, table, runs, columns),
        Engine::Faster => set_word(levels, table, runs, columns),
    }
}

// The answer for a set of f columns and some runs of a plan. Refusals 6 and 8, of the set.
pub fn set_word_answer(
    levels: &[u8],
    table: &[u8],
    runs: &[usize],
    f: usize,
    columns: &[usize],
    engine: Engine,
) -> Result<i64, Refusal>
    requires { Sound (plan levels.now table.now) runs.now }
    ensures { let p = plan levels.now table.now in
        let I = columns.now in
        result ≡ answered (refusal (set_word_checks p f I)) (word_of (level p) (entry p) runs.now I) }
{
    sets::routines::check_set(levels.len(), f, columns)?;
    Ok(word_by(levels, table, runs, columns, engine))
}

// The smallest level of the columns.
pub fn smallest_level(levels: &[u8], columns: &[usize]) -> u8
    requires { SomeColumns (length levels.now) columns.now }
    ensures { result ≡ smallest (map (λ i. get_or levels.now i 0) columns.now) }
{
    let first = columns[0];
    let others = &columns[1..];
    let mut lowest = levels[first];
    for i in others {
        lowest = lowest.min(levels[*i]);
    }
    lowest
}

// A word over n² · divisor. 256 runs and a divisor of 15 give a denominator of at most 983,040.
fn over(word: i64, n: usize, divisor: u64) -> Fraction
    requires pos_bound { pos 0 ≤ℤ word }
    requires le_n { (1 ≤ n) × (n ≤ most_runs) }
    requires le_divisor { (1 ≤ divisor) × (divisor < highest_level) }
    ensures { result ≡ reduced (nat_abs word) (n * n * divisor) }
{
    let n = n as u64;
    reduced(signed::to_u64(word), n * n * divisor)
}

// W(I) / (n² · divisor).
fn word_over(
    levels: &[u8],
    table: &[u8],
    runs: &[usize],
    columns: &[usize],
    word: i64,
    divisor: u64,
) -> Fraction
    requires tabled { Tabled (plan levels.now table.now) runs.now
        × (Projection (plan levels.now table.now) columns.now × ((1 ≤ divisor) × (divisor < highest_level))) }
    requires word_value { let p = plan levels.now table.now in word ≡ word_of (level p) (entry p) runs.now columns.now }
    ensures { result ≡ over_pairs (plan levels.now table.now) runs.now columns.now divisor }
{
    over(word, runs.len(), divisor)
}

// The value of a set in the table that is asked for, from its word.
#[tactic(auto, using(crate::proofs::Values::relative_of_lowest_one))]
pub fn value(
    levels: &[u8],
    table: &[u8],
    runs: &[usize],
    columns: &[usize],
    word: i64,
    relative: bool,
) -> Fraction
    requires tabled { Tabled (plan levels.now table.now) runs.now
        × (Projection (plan levels.now table.now) columns.now × (1 ≤ length columns.now)) }
    requires word_value { let p = plan levels.now table.now in word ≡ word_of (level p) (entry p) runs.now columns.now }
    ensures { result ≡ value_in relative (plan levels.now table.now) runs.now columns.now }
{
    if !relative {
        return word_over(levels, table, runs, columns, word, 1);
    }
    let lowest = u64::from(smallest_level(levels, columns));
    if lowest == 1 {
        return Fraction { num: 0, den: 1 };
    }
    word_over(levels, table, runs, columns, word, lowest - 1)
}
