// Words of single sets of columns, and projection frequency tables, of the standing runs.
ghost use Rattle.std.specs.Prelude.{◌≡◌, true, false};
ghost use Rattle.set_words.specs.SetWords.{set_word_answer};
ghost use Rattle.projection_tables.specs.Tables.{rooms, table_answer};
ghost use Rattle.held.specs.Held.{IsHeld, plan_in, standing_in, of_standing};
ghost use Rattle.held_questions.specs.Answers.{held_set_word, held_table, held_rooms};

use held::routines::standing_runs;
use held::{Answered, Held};
use projection_tables::routines::table_answer;
use rules::Refusal;
use set_words::Engine;
use set_words::routines::set_word_answer;

fn set_word_of(held: &Held, f: usize, set: &[usize]) -> Result<i64, Refusal>
    requires { IsHeld held.now }
    ensures { let h = held.now in result ≡ set_word_answer (plan_in h) (standing_in h) (of_standing h) f set.now }
{
    let runs = standing_runs(held)?;
    set_word_answer(
        held.levels(),
        held.table(),
        runs.as_slice(),
        f,
        set,
        Engine::Faster,
    )
}

// W(I) of a set of f columns.
#[tactic(auto, unfolding(crate::specs::Answers::held_set_word))]
pub fn set_word(held: Held, f: usize, set: &[usize]) -> Answered<i64>
    requires { IsHeld held }
    ensures { result ≡ held_set_word held f set.now }
{
    let answer = set_word_of(&held, f, set);
    Answered { held, answer }
}

// The table for size f, absolute or relative, in three lent rooms.
fn table_of(
    held: &Held,
    f: usize,
    relative: bool,
    nums: &mut [u64],
    dens: &mut [u64],
    counts: &mut [u64],
) -> Result<usize, Refusal>
    requires { IsHeld held.now }
    ensures answer { let h = held.now in
        result ≡ table_answer (plan_in h) (standing_in h) (of_standing h) relative f (rooms nums.old dens.old counts.old) }
    ensures rooms { rooms nums.new dens.new counts.new ≡
        held_rooms held.now relative f (rooms nums.old dens.old counts.old) }
{
    let runs = standing_runs(held)?;
    table_answer(
        held.levels(),
        held.table(),
        runs.as_slice(),
        &held.words,
        f,
        relative,
        nums,
        dens,
        counts,
    )
}

// The distinct values of W(I) / n² over all sets of f columns, rising, each with its count.
#[tactic(auto, unfolding(crate::specs::Answers::held_table))]
pub fn absolute_table(
    held: Held,
    f: usize,
    nums: &mut [u64],
    dens: &mut [u64],
    counts: &mut [u64],
) -> Answered<usize>
    requires { IsHeld held }
    ensures answer { result ≡ held_table held false f (rooms nums.old dens.old counts.old) }
    ensures rooms { rooms nums.new dens.new counts.new ≡
        held_rooms held false f (rooms nums.old dens.old counts.old) }
{
    let answer = table_of(&held, f, false, nums, dens, counts);
    Answered { held, answer }
}

// The same of W(I) / (n²(s - 1)), s being the smallest level in I; 16 where f is above R.
#[tactic(auto, unfolding(crate::specs::Answers::held_table))]
pub fn relative_table(
    held: Held,
    f: usize,
    nums: &mut [u64],
    dens: &mut [u64],
    counts: &mut [u64],
) -> Answered<usize>
    requires { IsHeld held }
    ensures answer { result ≡ held_table held true f (rooms nums.old dens.old counts.old) }
    ensures rooms { rooms nums.new dens.new counts.new ≡
        held_rooms held true f (rooms nums.old dens.old counts.old) }
{
    let answer = table_of(&held, f, true, nums, dens, counts);
    Answered { held, answer }
}
