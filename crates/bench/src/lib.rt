// What the benchmark and the tests call beside the planner's exports: functions on byte slices and numbers (bench/exports.h).
// Each answers a number, or the refusal number negated.
#![tactic(auto)]

ghost use Rattle.std.specs.Prelude.{◌≡◌, [], ◌≤◌, length};
ghost use Rattle.rules.specs.Plan.{plan, columns, level, entry, every_column, every_run};
ghost use Rattle.rules.specs.Refusals.{of_plan};
ghost use Rattle.plan.specs.Good.{Sound};
ghost use Rattle.words.specs.Words.{word_of, word};
ghost use Rattle.parts.specs.Parts.{counted};
ghost use Rattle.set_words.specs.Given.{Projection, SizeOf};
ghost use Rattle.projection_tables.specs.Tables.{rooms, table_rooms};
ghost use Rattle.held.specs.Held.{IsHeld};
ghost use Rattle.bench.specs.Exports.{
  rounds,
  strikes_number,
  table_number,
  ratio_number,
  set_word_number,
  set_words_answer,
  set_words_number,
};

use exact::listed::Numbers;
use exact::signed;
use held::Held;
use rules::Refusal;
use set_words::Engine;
use set_words::routines::word_by_pairs;
use sets::routines::{binomial, check_size, set_at};

// Run 0 struck and reinstated, so many times.
fn rounds(held: Held, times: u64) -> Held
    requires { IsHeld held }
    ensures { result ≡ rounds held times }
{
    let mut turned = held;
    for _ in 0..times {
        let without = held::calls::strike(turned, 0).held;
        turned = held::calls::reinstate(without, 0).held;
    }
    turned
}

// A plan is opened, goes through the rounds, and loses run 0: the word of one length of the runs that are left.
pub fn bench_strikes(levels: &[u8], table: &[u8], length: u64, times: u64) -> i64
    ensures { result ≡ strikes_number (plan levels.now table.now) length times }
{
    let opened = held::calls::open(levels, table);
    let left = held::calls::strike(rounds(opened.held, times), 0).held;
    let asked = held_questions::questions::word(left, length as usize);
    Refusal::number_or(opened.answer.and(asked.answer))
}

// The table for size f, put into the lent rooms: the number of its lines.
pub fn bench_table(
    levels: &[u8],
    table: &[u8],
    f: u64,
    relative: bool,
    nums: &mut [u64],
    dens: &mut [u64],
    counts: &mut [u64],
) -> i64
    ensures answer { let p = plan levels.now table.now in
        let R = rooms nums.old dens.old counts.old in
        result ≡ table_number relative p f R }
    ensures rooms { let p = plan levels.now table.now in
        let R = rooms nums.old dens.old counts.old in
        rooms nums.new dens.new counts.new ≡
        table_rooms p (every_run p) (of_plan p) relative f R }
{
    let answer = projection_tables::frequencies(
        levels, table, f as usize, relative, nums, dens, counts,
    );
    match answer {
        Ok(lines) => signed::of_size(lines),
        Err(refused) => Refusal::number_or(Err(refused)),
    }
}

// Generalized resolution in thousandths.
pub fn bench_ratio(levels: &[u8], table: &[u8]) -> i64
    ensures { result ≡ ratio_number (plan levels.now table.now) }
{
    match resolution::generalized(levels, table) {
        Ok(found) => signed::of_u64(found.thousandths),
        Err(refused) => Refusal::number_or(Err(refused)),
    }
}

// W(I) of a set of f columns, by the engine that is named.
pub fn bench_set_word(levels: &[u8], table: &[u8], f: u64, columns: &[usize], by_pairs: bool) -> i64
    ensures { result ≡ set_word_number (plan levels.now table.now) f columns.now }
{
    let engine = if by_pairs {
        Engine::Pairs
    } else {
        Engine::Counts
    };
    Refusal::number_or(set_words::set_word_by(levels, table, f as usize, columns, engine))
}

// W(I) of the runs, by the engine that is named.
fn word_by(
    levels: &[u8],
    table: &[u8],
    runs: &[usize],
    columns: &[usize],
    by_pairs: bool,
    counters: &mut [u16; 65536],
) -> i64
    requires sound { Sound (plan levels.now table.now) runs.now
        × (Projection (plan levels.now table.now) columns.now × (length columns.now ≤ 4)) }
    requires counters_value { counters.old ≡ counted [] }
    ensures word { let p = plan levels.now table.now in
        result ≡ word_of (level p) (entry p) runs.now columns.now }
    ensures counters { counters.new ≡ counted [] }
{
    if by_pairs {
        return word_by_pairs(levels, table, runs, columns);
    }
    parts::word(levels, table, runs, columns, counters)
}

// The words of all sets of f columns, added up.
fn words_added(levels: &[u8], table: &[u8], runs: &[usize], f: usize, by_pairs: bool) -> i64
    requires { Sound (plan levels.now table.now) runs.now × SizeOf (length levels.now) f }
    ensures { let p = plan levels.now table.now in
        result ≡ word (level p) (entry p) runs.now (every_column p) f }
{
    let m = levels.len();
    let mut counters = [0u16; 65536];
    let mut total: i64 = 0;
    for k in 0..binomial(m, f) {
        let set: Numbers<4> = set_at(m, f, k);
        let word = word_by(levels, table, runs, set.as_slice(), by_pairs, &mut counters);
        total = signed::add(total, word);
    }
    total
}

// The same of all runs of a plan.
fn words_of_sets(levels: &[u8], table: &[u8], f: usize, by_pairs: bool) -> Result<i64, Refusal>
    ensures { result ≡ set_words_answer (plan levels.now table.now) f }
{
    let runs = plan::routines::checked_runs(levels, table)?;
    check_size(levels.len(), f)?;
    Ok(words_added(levels, table, runs.as_slice(), f, by_pairs))
}

// W(I) of every set of f columns, by the engine that is named, added up.
pub fn bench_set_words(levels: &[u8], table: &[u8], f: u64, by_pairs: bool) -> i64
    ensures { result ≡ set_words_number (plan levels.now table.now) f }
{
    Refusal::number_or(words_of_sets(levels, table, f as usize, by_pairs))
}
