// Questions to a held plan: every answer is that of the standing runs, and the plan comes back as it was.
// Where no run stands the answer is refusal 10, ahead of every other.
ghost use Rattle.std.specs.Prelude.{◌≡◌};
ghost use Rattle.words.specs.Answers.{words_answer, word_answer, row_sums_answer};
ghost use Rattle.counts.specs.Counts.{strength_answer};
ghost use Rattle.tell.specs.Answer.{tell_answer};
ghost use Rattle.advice.specs.Advice.{advice_answer, turns_answer};
ghost use Rattle.held.specs.Held.{IsHeld, plan_in, standing_in, of_standing};
ghost use Rattle.held_questions.specs.Given.{held_side};
ghost use Rattle.held_questions.specs.Answers.{held_words, held_word, held_row_sums, held_strength, held_tell, held_comparison, held_advice, held_turns};

use crate::HeldComparison;
use compare::routines::{Side, compare_answer};
use exact::listed::Numbers;
use held::routines::standing_runs;
use held::{Answered, Held};
use rules::Refusal;
use tell::Told;
use words::Sums;
use words::routines::check_length;

fn words_of(held: &Held) -> Result<[i64; 24], Refusal>
    requires { IsHeld held.now }
    ensures { let h = held.now in result ≡ words_answer (plan_in h) (standing_in h) (of_standing h) }
{
    standing_runs(held)?;
    Ok(held.words)
}

// The words are held, so that none is counted anew.
#[tactic(auto, unfolding(crate::specs::Answers::held_words))]
pub fn words(held: Held) -> Answered<[i64; 24]>
    requires { IsHeld held }
    ensures { result ≡ held_words held }
{
    let answer = words_of(&held);
    Answered { held, answer }
}

fn word_of(held: &Held, length: usize) -> Result<i64, Refusal>
    requires { IsHeld held.now }
    ensures { let h = held.now in result ≡ word_answer (plan_in h) (standing_in h) (of_standing h) length }
{
    standing_runs(held)?;
    check_length(held.columns, length)?;
    Ok(held.words[length - 1])
}

// The word of one length.
#[tactic(auto, unfolding(crate::specs::Answers::held_word))]
pub fn word(held: Held, length: usize) -> Answered<i64>
    requires { IsHeld held }
    ensures { result ≡ held_word held length }
{
    let answer = word_of(&held, length);
    Answered { held, answer }
}

fn row_sums_of(held: &Held) -> Result<[Sums; 256], Refusal>
    requires { IsHeld held.now }
    ensures { let h = held.now in result ≡ row_sums_answer (plan_in h) (standing_in h) (of_standing h) }
{
    let runs = standing_runs(held)?;
    Ok(words::routines::rows(held.levels(), held.table(), runs.as_slice()))
}

// Every run's row sums, by run number; struck runs hold zero.
#[tactic(auto, unfolding(crate::specs::Answers::held_row_sums))]
pub fn row_sums(held: Held) -> Answered<[Sums; 256]>
    requires { IsHeld held }
    ensures { result ≡ held_row_sums held }
{
    let answer = row_sums_of(&held);
    Answered { held, answer }
}

fn strength_of(held: &Held) -> Result<usize, Refusal>
    requires { IsHeld held.now }
    ensures { let h = held.now in result ≡ strength_answer (plan_in h) (standing_in h) (of_standing h) }
{
    let runs = standing_runs(held)?;
    Ok(counts::routines::strength(held.levels(), held.table(), runs.as_slice()))
}

// The strength.
#[tactic(auto, unfolding(crate::specs::Answers::held_strength))]
pub fn strength(held: Held) -> Answered<usize>
    requires { IsHeld held }
    ensures { result ≡ held_strength held }
{
    let answer = strength_of(&held);
    Answered { held, answer }
}

fn told_of(held: &Held, column: usize, others: &[usize]) -> Result<Told, Refusal>
    requires { IsHeld held.now }
    ensures { let h = held.now in
        result ≡ tell_answer (plan_in h) (standing_in h) (of_standing h) column others.now }
{
    let runs = standing_runs(held)?;
    tell::routines::tell_answer(held.levels(), held.table(), runs.as_slice(), column, others)
}

// Whether the standing runs can tell an effect of the column from the others acting together. Runs are named by their own numbers.
#[tactic(auto, unfolding(crate::specs::Answers::held_tell))]
pub fn tell(held: Held, column: usize, others: &[usize]) -> Answered<Told>
    requires { IsHeld held }
    ensures { result ≡ held_tell held column others.now }
{
    let answer = told_of(&held, column, others);
    Answered { held, answer }
}

// The standing runs as one side of a comparison: their words are held.
fn side_of(held: &Held) -> Result<Side, Refusal>
    requires { IsHeld held.now }
    ensures { result ≡ held_side held.now }
{
    let standing = standing_runs(held)?;
    let runs = standing.len();
    Ok(Side {
        words: held.words,
        runs,
        columns: held.columns,
    })
}

// The standing runs of two plans, each divided by the square of its own number of runs. A refusal says which plan it is of, 1 or 2.
pub fn compare(held: Held, other: Held) -> HeldComparison
    requires { IsHeld held × IsHeld other }
    ensures { result ≡ held_comparison held other }
{
    let answer = compare_answer(side_of(&held), side_of(&other));
    HeldComparison {
        held,
        other,
        answer,
    }
}

fn advice_of(held: &Held) -> Result<usize, Refusal>
    requires { IsHeld held.now }
    ensures { let h = held.now in result ≡ advice_answer (plan_in h) (standing_in h) (of_standing h) }
{
    let runs = standing_runs(held)?;
    advice::routines::advice_answer(held.levels(), held.table(), runs.as_slice())
}

// The run whose loss gives the best plan; two or more must stand.
#[tactic(auto, unfolding(crate::specs::Answers::held_advice))]
pub fn advice(held: Held) -> Answered<usize>
    requires { IsHeld held }
    ensures { result ≡ held_advice held }
{
    let answer = advice_of(&held);
    Answered { held, answer }
}

fn turns_of(held: &Held, k: usize) -> Result<Numbers<3>, Refusal>
    requires { IsHeld held.now }
    ensures { let h = held.now in result ≡ turns_answer (plan_in h) (standing_in h) (of_standing h) k }
{
    let runs = standing_runs(held)?;
    advice::routines::turns_answer(held.levels(), held.table(), runs.as_slice(), k)
}

// The best k to lose, in the order taken; more than k must stand.
#[tactic(auto, unfolding(crate::specs::Answers::held_turns))]
pub fn in_turn(held: Held, k: usize) -> Answered<Numbers<3>>
    requires { IsHeld held }
    ensures { result ≡ held_turns held k }
{
    let answer = turns_of(&held, k);
    Answered { held, answer }
}
