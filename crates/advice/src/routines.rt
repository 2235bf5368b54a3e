// For our own crates: advice on runs of a plan that stand, each named by its number.
ghost use Rattle.std.specs.Prelude.{◌≡◌, [], ◌∷◌, ◌+◌, ◌≤◌, ◌<◌, length, take};
ghost use Rattle.exact.specs.Fractions.{is_better};
ghost use Rattle.rules.specs.Plan.{plan, most_columns, most_runs};
ghost use Rattle.rules.specs.Refusals.{refusal, answered, bad_number, too_few};
ghost use Rattle.advice.specs.Advice.{without, advice, in_turn, advice_checks, turns_checks};
ghost use Rattle.advice.specs.Given.{Standing};
ghost use Rattle.advice.specs.Rows.{larger, larger_row};

use exact::fractions::Verdict;
use exact::listed::Numbers;
use rules::Refusal;
use rules::sizes::MOST_RUNS;
use words::Sums;

// The larger row sum is better to lose.
pub(crate) fn larger(a: &i64, b: &i64) -> Verdict
    ensures { result ≡ larger a.now b.now }
{
    Verdict::from(b.cmp(a))
}

// Whether the row sums a are larger than b at the first of the lengths 1 to m at which they differ.
#[tactic(auto, unfolding(crate::specs::Rows::larger_row))]
pub(crate) fn larger_row(a: &Sums, b: &Sums, m: usize) -> bool
    requires { (length a.now.sums ≡ most_columns) × ((length b.now.sums ≡ most_columns) × (m ≤ most_columns)) }
    ensures { result ≡ is_better (larger_row (take m a.now.sums) (take m b.now.sums)) }
{
    for (x, y) in a.sums[..m].iter().zip(&b.sums[..m]) {
        let verdict = larger(x, y);
        if verdict != Verdict::Equal {
            return verdict == Verdict::Better;
        }
    }
    false
}

// The runs, in a list that can be shortened.
pub(crate) fn copied(runs: &[usize]) -> Numbers<MOST_RUNS>
    requires { length runs.now ≤ most_runs }
    ensures { result ≡ runs.now }
{
    let mut left = Numbers::new();
    for run in runs {
        left.push(*run);
    }
    left
}

// The runs but run f.
pub(crate) fn without(f: usize, runs: &[usize]) -> Numbers<MOST_RUNS>
    requires { length runs.now ≤ most_runs }
    ensures { result ≡ without f runs.now }
{
    let mut left = Numbers::new();
    for run in runs {
        if *run != f {
            left.push(*run);
        }
    }
    left
}

// The run with the largest row sums, which is the best to lose; the lowest number among equals. The rows leave out E_j, which all have alike.
pub fn advice(levels: &[u8], table: &[u8], runs: &[usize]) -> usize
    requires { Standing (plan levels.now table.now) runs.now × (2 ≤ length runs.now) }
    ensures { result ≡ advice (plan levels.now table.now) runs.now }
{
    let m = levels.len();
    let rows = words::routines::rows_of_others(levels, table, runs);
    let mut best = 0;
    for i in 1..runs.len() {
        if larger_row(&rows[i], &rows[best], m) {
            best = i;
        }
    }
    runs[best]
}

// The advice taken k times in turn.
pub fn in_turn(levels: &[u8], table: &[u8], runs: &[usize], k: usize) -> Numbers<3>
    requires { Standing (plan levels.now table.now) runs.now × ((k ≤ 3) × (k < length runs.now)) }
    ensures { result ≡ in_turn (plan levels.now table.now) k runs.now }
{
    let mut lost = Numbers::new();
    let mut left = copied(runs);
    while lost.len() < k {
        let f = advice(levels, table, left.as_slice());
        lost.push(f);
        left = without(f, left.as_slice());
    }
    lost
}

// The answer for the runs that stand: 10 where fewer than two stand.
pub fn advice_answer(levels: &[u8], table: &[u8], runs: &[usize]) -> Result<usize, Refusal>
    requires { Standing (plan levels.now table.now) runs.now }
    ensures { let p = plan levels.now table.now in let rs = runs.now in
        result ≡ answered (refusal (advice_checks rs)) (advice p rs) }
{
    Refusal::too_few(2, runs.len())?;
    Ok(advice(levels, table, runs))
}

// Refusals 6 and 10: k is outside 1 to 3, or no more than k runs stand.
fn check_turns(k: usize, standing: usize) -> Result<(), Refusal>
    ensures { result ≡ answered (refusal (bad_number k ∷ too_few (k + 1) standing ∷ [])) tt }
{
    if k < 1 || 3 < k {
        return Err(Refusal::plain(6));
    }
    Refusal::too_few(k + 1, standing)
}

// The answer for losing in turn.
pub fn turns_answer(
    levels: &[u8],
    table: &[u8],
    runs: &[usize],
    k: usize,
) -> Result<Numbers<3>, Refusal>
    requires { Standing (plan levels.now table.now) runs.now }
    ensures { let p = plan levels.now table.now in let rs = runs.now in
        result ≡ answered (refusal (turns_checks k rs)) (in_turn p k rs) }
{
    check_turns(k, runs.len())?;
    Ok(in_turn(levels, table, runs, k))
}
