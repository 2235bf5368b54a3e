// The runs that stand, and the words that a change of mark leaves.
ghost use Rattle.std.specs.Prelude.{◌≡◌, [], ◌∷◌, ◌≤◌, ◌^◌, nat_abs, length};
ghost use Rattle.rules.specs.Refusals.{refusal, answered, too_few};
ghost use Rattle.words.specs.Given.{Row};
ghost use Rattle.held.specs.Held.{IsHeld, marks_in, standing, standing_in};
ghost use Rattle.held.specs.Given.{factor_of, changed};

use crate::Held;
use exact::listed::Numbers;
use exact::signed;
use rules::Refusal;
use rules::sizes::MOST_RUNS;

// The runs that stand, in number order.
pub(crate) fn standing_numbers(held: &Held) -> Numbers<MOST_RUNS>
    requires { IsHeld held.now }
    ensures { result ≡ standing_in held.now }
{
    let mut standing = Numbers::new();
    for (f, stands) in held.marks[..held.runs].iter().enumerate() {
        if *stands {
            standing.push(f);
        }
    }
    standing
}

// How a question to a held plan begins: refusal 10 where no run stands.
pub fn standing_runs(held: &Held) -> Result<Numbers<MOST_RUNS>, Refusal>
    requires { IsHeld held.now }
    ensures { let rs = standing (marks_in held.now) in result ≡ answered (refusal (too_few 1 (length rs) ∷ [])) rs }
{
    let standing = standing_numbers(held);
    Refusal::too_few(1, standing.len())?;
    Ok(standing)
}

// Twice the row sum is taken off the words at a strike, and added at a reinstatement.
pub(crate) fn factor(stands: bool) -> i64
    ensures { result ≡ factor_of stands }
{
    if stands { 2 } else { -2 }
}

// W - 2·row + E, or W + 2·row + E, for each length.
pub(crate) fn changed_words(
    words: &[i64; 24],
    factor: i64,
    row: &[i64; 24],
    diagonal: &[i64; 24],
) -> [i64; 24]
    requires { (nat_abs factor ≤ 2) × (Row (2 ^ 60) words.now × (Row (2 ^ 60) row.now × Row (2 ^ 60) diagonal.now)) }
    ensures { result ≡ changed factor words.now row.now diagonal.now }
{
    let mut after = [0i64; 24];
    for j in 0..24 {
        after[j] = signed::add(
            signed::add(words[j], signed::mul(factor, row[j])),
            diagonal[j],
        );
    }
    after
}
