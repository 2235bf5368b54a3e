// For our own crates: the words of some runs of a plan, each named by its number, and what is refused because of them.
#![tactic(auto)]

ghost use Rattle.std.specs.Prelude.{◌≡◌, true, [], ◌∷◌, ◌≤◌};
ghost use Rattle.rules.specs.Plan.{plan, most_columns};
ghost use Rattle.rules.specs.Refusals.{refusal, answered, past_resolution};
ghost use Rattle.plan.specs.Good.{Sound};
ghost use Rattle.words.specs.Answers.{word_list};
ghost use Rattle.resolution.specs.Given.{first_above};

use pairs::routines::{add_to, diagonal};
use resolution::routines::resolution;
use rules::Refusal;
use words::routines::{both_orders, row};

// Each pair of different runs is visited once and counted double, at the end the pairs of a run with itself.
pub fn words_of_runs(levels: &[u8], table: &[u8], runs: &[usize]) -> [i64; 24]
    requires { Sound (plan levels.now table.now) runs.now }
    ensures { result ≡ word_list (plan levels.now table.now) runs.now }
{
    let mut total = [0i64; 24];
    for k in (0..runs.len()).rev() {
        let later = row(levels, table, &runs[k + 1..], runs[k]);
        add_to(&mut total, &later.sums);
    }
    let own = diagonal(levels);
    both_orders(&mut total, &own, runs.len());
    total
}

// The words, where they are wanted, and else zeros.
pub fn words_wanted(wanted: bool, levels: &[u8], table: &[u8], runs: &[usize]) -> [i64; 24]
    requires { Sound (plan levels.now table.now) runs.now }
    ensures { let p = plan levels.now table.now in
        wanted ≡ true → result ≡ word_list p runs.now }
{
    if wanted {
        words_of_runs(levels, table, runs)
    } else {
        [0; 24]
    }
}

// Refusal 16: a relative table of m columns, whose words these are, is asked for f above R.
pub fn check_relative(relative: bool, words: &[i64; 24], m: usize, f: usize) -> Result<(), Refusal>
    requires { m ≤ most_columns }
    ensures { result ≡ answered (refusal (past_resolution relative (first_above words.now m) f ∷ [])) tt }
{
    if relative && resolution(words, m) < f {
        return Err(Refusal::plain(16));
    }
    Ok(())
}
