// For our own crates: the comparison of scaled words, and of some runs of two plans.
ghost use Rattle.std.specs.Prelude.{◌≡◌, map, ◌≤◌, take};
ghost use Rattle.exact.specs.Fractions.{smaller_fraction};
ghost use Rattle.rules.specs.Plan.{plan, most_columns};
ghost use Rattle.compare.specs.Compare.{over, compare_patterns};
ghost use Rattle.compare.specs.Given.{WordOf, WordsOf, Sided, compare_sides, whole_side};

use crate::RefusedPlan;
use exact::fractions::{Fraction, Verdict};
use exact::{fractions, signed};
use rules::Refusal;

// The word of n runs from their scaled word.
pub(crate) fn over(word: i64, n: usize) -> Fraction
    requires { WordOf n word }
    ensures { result ≡ over n word }
{
    let num = signed::to_u64(word);
    let den = (n * n) as u64;
    Fraction { num, den }
}

// The words of one length, from the scaled words of n and of k runs.
pub(crate) fn compare_word(a: &i64, n: usize, b: &i64, k: usize) -> Verdict
    requires { (WordOf n a.now) × (WordOf k b.now) }
    ensures { result ≡ smaller_fraction (over n a.now) (over k b.now) }
{
    fractions::smaller_fraction(over(*a, n), over(*b, k))
}

// The scaled words of n runs against those of k runs, by the first of the lengths 1 to m at which the words differ.
#[tactic(auto, unfolding(crate::specs::Compare::compare_patterns))]
pub fn compare_words(a: &[i64; 24], n: usize, b: &[i64; 24], k: usize, m: usize) -> Verdict
    requires { (WordsOf n a.now) × ((WordsOf k b.now) × (m ≤ most_columns)) }
    ensures { result ≡ compare_patterns (map (over n) (take m a.now)) (map (over k) (take m b.now)) }
{
    for (x, y) in a[..m].iter().zip(&b[..m]) {
        let verdict = compare_word(x, n, y, k);
        if verdict != Verdict::Equal {
            return verdict;
        }
    }
    Verdict::Equal
}

// What the comparison takes of a plan: the scaled words of its runs, and the numbers of its runs and columns.
#[derive(Clone, Copy)]
pub struct Side {
    pub words: [i64; 24],
    pub runs: usize,
    pub columns: usize,
}

// One side against the other, the first plan's refusal ahead of the second's.
pub fn compare_answer(
    first: Result<Side, Refusal>,
    second: Result<Side, Refusal>,
) -> Result<Option<Verdict>, RefusedPlan>
    requires { Sided first × Sided second }
    ensures { result ≡ compare_sides first second }
{
    let a = first.map_err(|refusal| RefusedPlan { plan: 1, refusal })?;
    let b = second.map_err(|refusal| RefusedPlan { plan: 2, refusal })?;
    if a.columns != b.columns {
        return Ok(None);
    }
    let verdict = compare_words(&a.words, a.runs, &b.words, b.runs, a.columns);
    Ok(Some(verdict))
}

// All runs of a plan, behind its checks.
pub(crate) fn side_of(levels: &[u8], table: &[u8]) -> Result<Side, Refusal>
    ensures { result ≡ whole_side (plan levels.now table.now) }
{
    plan::check(levels, table)?;
    Ok(Side {
        words: words::routines::words_of_plan(levels, table),
        runs: table.len() / levels.len(),
        columns: levels.len(),
    })
}
