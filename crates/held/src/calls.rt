// Opening a plan, strike and reinstatement.
ghost use Rattle.std.specs.Prelude.{◌≡◌, true, false, ◌≤◌, replicate};
ghost use Rattle.exact.specs.Lists.{filled_to};
ghost use Rattle.rules.specs.Plan.{plan, runs, most_runs};
ghost use Rattle.rules.specs.Refusals.{refusal, answered};
ghost use Rattle.plan.specs.Good.{Good};
ghost use Rattle.held.specs.Held.{IsHeld, held_of, empty_held, open_answer, strikes, reinstates, marks_in, call_checks, remarked, call_answer};
ghost use Rattle.held.specs.Given.{Changes};

use crate::measures::{diagonal_of, row_of};
use crate::routines::{changed_words, factor, standing_numbers};
use crate::{Answered, Held};
use exact::lent::copy;
use rules::Refusal;
use rules::sizes::MOST_ENTRIES;

// A plan without columns or runs, every number in it zero.
fn empty() -> Held
    ensures { result ≡ empty_held }
{
    Held {
        columns: 0,
        runs: 0,
        levels: [0; 24],
        entries: [0; MOST_ENTRIES],
        marks: [false; 256],
        words: [0; 24],
    }
}

// All n runs stand.
fn all_marked(n: usize) -> [bool; 256]
    requires { n ≤ most_runs }
    ensures { result ≡ filled_to most_runs false (replicate n true) }
{
    let mut marks = [false; 256];
    marks[..n].fill(true);
    marks
}

// A checked plan, all its runs standing.
fn opened(levels: &[u8], table: &[u8]) -> Held
    requires { Good (plan levels.now table.now) }
    ensures { result ≡ held_of (plan levels.now table.now) (replicate (runs (plan levels.now table.now)) true) }
{
    let columns = levels.len();
    let runs = table.len() / columns;
    let words = words::routines::words_of_plan(levels, table);
    let mut held_levels = [0u8; 24];
    copy(levels, &mut held_levels);
    let mut entries = [0u8; MOST_ENTRIES];
    copy(table, &mut entries);
    Held {
        columns,
        runs,
        levels: held_levels,
        entries,
        marks: all_marked(runs),
        words,
    }
}

// Refusals 1 to 5; a refused opening gives the empty plan.
pub fn open(levels: &[u8], table: &[u8]) -> Answered<()>
    ensures { result ≡ open_answer (plan levels.now table.now) }
{
    let answer = plan::check(levels, table);
    let held = if answer.is_ok() {
        opened(levels, table)
    } else {
        empty()
    };
    Answered { held, answer }
}

// The mark of a run changed, and the words by one row sum.
fn remark(held: &mut Held, run: usize, stands: bool)
    requires { Changes held.old run stands }
    ensures { held.new ≡ remarked held.old run stands }
{
    let row = row_of(held, run);
    let diagonal = diagonal_of(held);
    held.words = changed_words(&held.words, factor(stands), &row.sums, &diagonal);
    held.marks[run] = stands;
}

// A strike needs a standing run and two or more standing.
fn check_strike(held: &Held, run: usize) -> Result<(), Refusal>
    requires { IsHeld held.now }
    ensures { result ≡ answered (refusal (call_checks (marks_in held.now) (strikes run))) tt }
{
    if held.runs <= run {
        return Err(Refusal::plain(8));
    }
    if !held.marks[run] {
        return Err(Refusal::plain(9));
    }
    Refusal::too_few(2, standing_numbers(held).len())
}

// A reinstatement needs a struck run.
fn check_reinstatement(held: &Held, run: usize) -> Result<(), Refusal>
    requires { IsHeld held.now }
    ensures { result ≡ answered (refusal (call_checks (marks_in held.now) (reinstates run))) tt }
{
    if held.runs <= run {
        return Err(Refusal::plain(8));
    }
    if held.marks[run] {
        return Err(Refusal::plain(9));
    }
    Ok(())
}

// A refused strike hands the plan back as it was.
// Kept out of its callers, which would hold each copy of the plan.
#[inline(never)]
pub fn strike(mut held: Held, run: usize) -> Answered<()>
    requires { IsHeld held }
    ensures { result ≡ call_answer held (strikes run) }
{
    let answer = check_strike(&held, run);
    if answer.is_ok() {
        remark(&mut held, run, false);
    }
    Answered { held, answer }
}

// A refused reinstatement, too.
pub fn reinstate(mut held: Held, run: usize) -> Answered<()>
    requires { IsHeld held }
    ensures { result ≡ call_answer held (reinstates run) }
{
    let answer = check_reinstatement(&held, run);
    if answer.is_ok() {
        remark(&mut held, run, true);
    }
    Answered { held, answer }
}
