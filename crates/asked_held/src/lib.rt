// For the tests: questions to a held plan, after a history of calls, as C functions (tests/asked.h). The plan is opened, refused or not, and led
// through the history. A function answers the refusal's number, 0 where there is none; the numbers of the answer go to the lent rooms,
// zeros in a refusal.
#![tactic(auto)]

ghost use Rattle.std.specs.Prelude.{◌≡◌, [], pos};
ghost use Rattle.std.specs.Result.{result_unwrap_or};
ghost use Rattle.exact.specs.Lists.{filled_to};
ghost use Rattle.rules.specs.Plan.{plan};
ghost use Rattle.rules.specs.Refusals.{refusal_in};
ghost use Rattle.words.specs.Answers.{zeros};
ghost use Rattle.held.specs.Held.{call_answer};
ghost use Rattle.held_questions.specs.Answers.{held_words, held_word, held_row_sums, held_strength, held_comparison, held_advice, held_turns};
ghost use Rattle.asked.specs.Asked.{row_at, numbers_of};
ghost use Rattle.asked_held.specs.Histories.{call_of, led};

use asked::numbers::{in_row, numbers_of, refusal_in, row_at};
use history::{called, led};

pub mod history;

// W_1, W_2, ..
pub fn asked_held_words(levels: &[u8], table: &[u8], history: &[u64], words: &mut [i64; 24]) -> u64
    ensures refused { let h = led (plan levels.now table.now) history.now in
        result ≡ (refusal_in (held_words h).answer).number }
    ensures words { let h = led (plan levels.now table.now) history.now in
        words.new ≡ result_unwrap_or (held_words h).answer zeros }
{
    let answer = held_questions::questions::words(led(levels, table, history)).answer;
    *words = answer.unwrap_or([0; 24]);
    refusal_in(&answer).number
}

// The scaled word of one length.
pub fn asked_held_word(
    levels: &[u8],
    table: &[u8],
    history: &[u64],
    length: usize,
    word: &mut i64,
) -> u64
    ensures refused { let h = led (plan levels.now table.now) history.now in
        result ≡ (refusal_in (held_word h length).answer).number }
    ensures word { let h = led (plan levels.now table.now) history.now in
        word.new ≡ result_unwrap_or (held_word h length).answer (pos 0) }
{
    let answer = held_questions::questions::word(led(levels, table, history), length).answer;
    *word = answer.unwrap_or(0);
    refusal_in(&answer).number
}

// The row sums of a run, or of a place without one.
pub fn asked_held_row_sums(
    levels: &[u8],
    table: &[u8],
    history: &[u64],
    run: u8,
    sums: &mut [i64; 24],
) -> u64
    ensures refused { let h = led (plan levels.now table.now) history.now in
        result ≡ (refusal_in (held_row_sums h).answer).number }
    ensures sums { let h = led (plan levels.now table.now) history.now in
        sums.new ≡ row_at (held_row_sums h).answer run }
{
    let answer = held_questions::questions::row_sums(led(levels, table, history)).answer;
    *sums = row_at(&answer, run);
    refusal_in(&answer).number
}

// The strength.
pub fn asked_held_strength(
    levels: &[u8],
    table: &[u8],
    history: &[u64],
    strength: &mut usize,
) -> u64
    ensures refused { let h = led (plan levels.now table.now) history.now in
        result ≡ (refusal_in (held_strength h).answer).number }
    ensures strength { let h = led (plan levels.now table.now) history.now in
        strength.new ≡ result_unwrap_or (held_strength h).answer 0 }
{
    let answer = held_questions::questions::strength(led(levels, table, history)).answer;
    *strength = answer.unwrap_or(0);
    refusal_in(&answer).number
}

// The run advised for loss.
pub fn asked_held_advice(levels: &[u8], table: &[u8], history: &[u64], run: &mut usize) -> u64
    ensures refused { let h = led (plan levels.now table.now) history.now in
        result ≡ (refusal_in (held_advice h).answer).number }
    ensures run { let h = led (plan levels.now table.now) history.now in
        run.new ≡ result_unwrap_or (held_advice h).answer 0 }
{
    let answer = held_questions::questions::advice(led(levels, table, history)).answer;
    *run = answer.unwrap_or(0);
    refusal_in(&answer).number
}

// The best k to lose, in turn.
pub fn asked_held_in_turn(
    levels: &[u8],
    table: &[u8],
    history: &[u64],
    k: usize,
    runs: &mut [usize; 3],
) -> u64
    ensures refused { let h = led (plan levels.now table.now) history.now in
        result ≡ (refusal_in (held_turns h k).answer).number }
    ensures runs { let h = led (plan levels.now table.now) history.now in
        runs.new ≡ filled_to 3 0 (result_unwrap_or (held_turns h k).answer []) }
{
    let answer = held_questions::questions::in_turn(led(levels, table, history), k).answer;
    *runs = in_row(&answer);
    refusal_in(&answer).number
}

// Two held plans compared: the case, and of a refusal the plan, the number and the places.
pub fn asked_held_comparison(
    levels1: &[u8],
    table1: &[u8],
    history1: &[u64],
    levels2: &[u8],
    table2: &[u8],
    history2: &[u64],
    numbers: &mut [u64; 5],
)
    ensures { let h = led (plan levels1.now table1.now) history1.now in
        let k = led (plan levels2.now table2.now) history2.now in
        numbers.new ≡ numbers_of (held_comparison h k).answer }
{
    let held = led(levels1, table1, history1);
    let other = led(levels2, table2, history2);
    *numbers = numbers_of(held_questions::questions::compare(held, other).answer);
}

// One call more after the history.
pub fn asked_held_call(levels: &[u8], table: &[u8], history: &[u64], call: u64) -> u64
    ensures { let h = led (plan levels.now table.now) history.now in
        result ≡ (refusal_in (call_answer h (call_of call)).answer).number }
{
    let answered = called(led(levels, table, history), call);
    refusal_in(&answered.answer).number
}
