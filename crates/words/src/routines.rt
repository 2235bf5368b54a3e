// For our own crates: row sums over some runs of a plan, each named by its number, as the runs that stand are; and the words of all its runs.
ghost use Rattle.std.specs.Prelude.{◌≡◌, [], ◌∷◌, ◌≤◌, ◌^◌};
ghost use Rattle.rules.specs.Plan.{plan, every_run, most_runs};
ghost use Rattle.rules.specs.Refusals.{refusal, answered, bad_length};
ghost use Rattle.plan.specs.Good.{Good, Sound};
ghost use Rattle.pairs.specs.Given.{Row};
ghost use Rattle.pairs.specs.Lists.{row_list};
ghost use Rattle.cells.specs.Cells.{window, Strides};
ghost use Rattle.tally.specs.Tally.{Lent};
ghost use Rattle.row_tally.specs.Kept.{Kept};
ghost use Rattle.words.specs.Given.{both_orders, others_by_place};
ghost use Rattle.words.specs.Answers.{rows_by_run, word_list};

use crate::Sums;
use cells::strides::{places_of, strides_of};
use exact::signed;
use pairs::routines::{add_to, diagonal, pair};
use row_tally::routines::{pairs_pay, row_in};
use rules::Refusal;

// The row sums of run f over the runs given, of which f need not be one.
pub fn row(levels: &[u8], table: &[u8], runs: &[usize], f: usize) -> Sums
    requires { Sound (plan levels.now table.now) runs.now × Sound (plan levels.now table.now) (f ∷ []) }
    ensures { result.sums ≡ row_list (plan levels.now table.now) runs.now f }
{
    Sums {
        sums: row_tally::routines::row(levels, table, runs, f),
    }
}

// For the run at each place of the list, its row sums over the runs at the other places. Each pair is visited once, and added to both rows.
// By place and not by number: a list may name a run twice, and by number such a run would get its pairs twice.
// Kept out of its callers, which would hold its rows beside their own.
#[inline(never)]
fn others_by_pairs(levels: &[u8], table: &[u8], runs: &[usize]) -> [Sums; 256]
    requires { Sound (plan levels.now table.now) runs.now }
    ensures { result ≡ others_by_place (plan levels.now table.now) runs.now }
{
    let m = levels.len();
    let mut rows = [Sums { sums: [0; 24] }; 256];
    for (k, f) in runs.iter().enumerate() {
        let mut total = [0i64; 24];
        for (e, g) in runs[..k].iter().enumerate() {
            let sums = pair(levels, table, *f, *g);
            let longer = &sums[1..m + 1];
            add_to(&mut total, longer);
            add_to(&mut rows[e].sums, longer);
        }
        rows[k] = Sums { sums: total };
    }
    rows
}

// The same with the pairs of each run counted by cell.
// Kept out of its callers, as above.
#[inline(never)]
fn others_in(
    counts: &mut [u16],
    samples: &mut [u16],
    known: &mut [u8],
    kept: &mut [i64],
    strides: &[u16; 24],
    levels: &[u8],
    table: &[u8],
    runs: &[usize],
) -> [Sums; 256]
    requires { let p = plan levels.now table.now in Strides p strides.now × Sound p runs.now × Lent counts.old samples.old
        × Kept p known.old kept.old }
    ensures { result ≡ others_by_place (plan levels.now table.now) runs.now }
{
    let mut rows = [Sums { sums: [0; 24] }; 256];
    for (k, f) in runs.iter().enumerate() {
        let sums = row_in(
            counts,
            samples,
            known,
            kept,
            strides,
            levels,
            table,
            &runs[..k],
            &runs[k + 1..],
            *f,
        );
        rows[k] = Sums { sums };
    }
    rows
}

// The same in rooms of our own. Where all columns have two levels there are at most 25 cells.
fn others_by_cells(levels: &[u8], table: &[u8], runs: &[usize]) -> [Sums; 256]
    requires { Sound (plan levels.now table.now) runs.now }
    ensures { result ≡ others_by_place (plan levels.now table.now) runs.now }
{
    let strides = strides_of(levels);
    let places = places_of(&strides, levels, 1024);
    let mut counts = [0u16; 1024];
    let mut samples = [0u16; 1024];
    let mut known = [0u8; 32];
    let mut kept = [0i64; 768];
    others_in(
        &mut counts[..places],
        &mut samples[..places],
        &mut known,
        &mut kept,
        &strides,
        levels,
        table,
        runs,
    )
}

// For the run at each place of the list, its row sums over the runs at the other places.
pub fn rows_of_others(levels: &[u8], table: &[u8], runs: &[usize]) -> [Sums; 256]
    requires { Sound (plan levels.now table.now) runs.now }
    ensures { result ≡ others_by_place (plan levels.now table.now) runs.now }
{
    if pairs_pay(levels, runs.len()) {
        return others_by_pairs(levels, table, runs);
    }
    others_by_cells(levels, table, runs)
}

// The row sums of every run, by its number. The pairs of a run with itself are added here, at the end.
pub fn rows(levels: &[u8], table: &[u8], runs: &[usize]) -> [Sums; 256]
    requires { Sound (plan levels.now table.now) runs.now }
    ensures { result ≡ rows_by_run (plan levels.now table.now) runs.now }
{
    let others = rows_of_others(levels, table, runs);
    let own = diagonal(levels);
    let mut rows = [Sums { sums: [0; 24] }; 256];
    for (f, other) in runs.iter().zip(&others) {
        let mut whole = *other;
        add_to(&mut whole.sums, &own);
        rows[*f] = whole;
    }
    rows
}

// The total of each pair in one order becomes that in both, and each of the runs has a pair with itself.
pub fn both_orders(total: &mut [i64; 24], own: &[i64], runs: usize)
    requires { Row (2 ^ 60) total.old × (Row (2 ^ 32) own.now × (runs ≤ most_runs)) }
    ensures { total.new ≡ both_orders runs own.now total.old }
{
    let n = signed::of_size(runs);
    for (j, sum) in total.iter_mut().enumerate() {
        let once = *sum;
        let half = signed::add(once, signed::mul(n, own[j]));
        *sum = signed::add(half, once);
    }
}

// The words of an accepted plan, with N counters: each pair of different runs visited once and counted double, at the end the pairs of a run
// with itself. With 168 counters, which are enough where no column has more than two levels, it takes less than 2,048 bytes of stack.
pub(crate) fn words_with<const N: usize>(levels: &[u8], table: &[u8]) -> [i64; 24]
    requires { Good (plan levels.now table.now) × (N ≤ window) }
    ensures { let p = plan levels.now table.now in result ≡ word_list p (every_run p) }
{
    let n = table.len() / levels.len();
    let mut total = tally::routines::once::<N>(levels, table);
    let own = diagonal(levels);
    both_orders(&mut total, &own, n);
    total
}

// The words of an accepted plan.
// Kept out of its callers, which would hold its counters.
#[inline(never)]
pub fn words_of_plan(levels: &[u8], table: &[u8]) -> [i64; 24]
    requires { Good (plan levels.now table.now) }
    ensures { let p = plan levels.now table.now in result ≡ word_list p (every_run p) }
{
    words_with::<1024>(levels, table)
}

// Refusal 8: a word length is outside 1 to m.
pub fn check_length(m: usize, length: usize) -> Result<(), Refusal>
    ensures { result ≡ answered (refusal (bad_length m length ∷ [])) tt }
{
    if length < 1 || m < length {
        return Err(Refusal::plain(8));
    }
    Ok(())
}
