// For our own crates: the row sums of a run over some runs. Its pairs are counted by cell, in counters lent at zero and given back at zero.
// What a pair of a cell adds is worked out once, and kept for the next run.
ghost use Rattle.std.specs.Prelude.{◌≡◌, [], ◌∷◌, ◌+◌, ◌/◌, ◌%◌, ◌<◌, ◌≤◌, ◌^◌, length, get_or};
ghost use Rattle.rules.specs.Plan.{plan, most_columns, most_runs};
ghost use Rattle.plan.specs.Good.{Sound};
ghost use Rattle.pairs.specs.Given.{Row, added};
ghost use Rattle.pairs.specs.Lists.{row_list};
ghost use Rattle.cells.specs.Cells.{Strides, cell_of, pair_row};
ghost use Rattle.tally.specs.Tally.{added_times, Runs, Tally, Few, worth, Counted, Lent};
ghost use Rattle.row_tally.specs.Kept.{Kept, KeptOn};

use cells::strides::{places_of, strides_of};
use pairs::routines::pair;
use tally::routines::{add_times, tally};

// The pairs of run f with the runs given.
fn tally_runs(
    total: &mut [i64; 24],
    counts: &mut [u16],
    samples: &mut [u16],
    strides: &[u16; 24],
    levels: &[u8],
    table: &[u8],
    runs: &[usize],
    f: usize,
)
    requires { let p = plan levels.now table.now in
        Strides p strides.now × Sound p runs.now × Sound p (f ∷ []) × Row (2 ^ 59) total.old × Tally p counts.old samples.old × Few 65024 counts.old }
    ensures { let p = plan levels.now table.now in
        Counted p 256 (row_list p runs.now f) total.old counts.old samples.old
        total.new counts.new samples.new }
{
    for g in runs {
        tally(total, counts, samples, strides, levels, table, f, *g);
    }
}

// The cell of the pair x has its row.
fn keep(known: &mut [u8], kept: &mut [i64], levels: &[u8], table: &[u8], c: usize, x: u16)
    requires { let p = plan levels.now table.now in
        Kept p known.old kept.old × (c < length known.old) × Runs p x × (cell_of p (x / 256) (x % 256) ≡ c) }
    ensures { let p = plan levels.now table.now in
        KeptOn p known.old known.new kept.new × (0 < get_or known.new c 0) }
{
    if known[c] != 0 {
        return;
    }
    let sums = pair(levels, table, usize::from(x / 256), usize::from(x % 256));
    kept[c * 24..c * 24 + 24].copy_from_slice(&sums[1..]);
    known[c] = 1;
}

// The pairs of one cell go into the total. A cell above the room for rows has its sums worked out here.
fn settle_cell(
    total: &mut [i64; 24],
    known: &mut [u8],
    kept: &mut [i64],
    levels: &[u8],
    table: &[u8],
    c: usize,
    times: u16,
    x: u16,
)
    requires { let p = plan levels.now table.now in Row (2 ^ 60) total.old × Kept p known.old kept.old × (0 < times → Runs p x)
        × (0 < times → cell_of p (x / 256) (x % 256) ≡ c) }
    ensures { let p = plan levels.now table.now in
        (total.new ≡ added_times times total.old (pair_row p (x / 256) (x % 256)))
        × KeptOn p known.old known.new kept.new }
{
    if times == 0 {
        return;
    }
    if c < known.len() {
        keep(known, kept, levels, table, c, x);
        add_times(total, &kept[c * 24..c * 24 + 24], times);
        return;
    }
    tally::routines::settle_cell(total, levels, table, times, x);
}

// All pairs that are only counted go into the total.
fn settle(
    total: &mut [i64; 24],
    counts: &[u16],
    samples: &[u16],
    known: &mut [u8],
    kept: &mut [i64],
    levels: &[u8],
    table: &[u8],
)
    requires { let p = plan levels.now table.now in
        Row (2 ^ 59) total.old × Tally p counts.now samples.now × Few 65535 counts.now × Kept p known.old kept.old }
    ensures { let p = plan levels.now table.now in
        (total.new ≡ worth p total.old counts.now samples.now)
        × KeptOn p known.old known.new kept.new }
{
    for (c, times) in counts.iter().enumerate() {
        settle_cell(total, known, kept, levels, table, c, *times, samples[c]);
    }
}

// The row sums of run f over two lists of runs, of which f need not be one.
pub fn row_in(
    counts: &mut [u16],
    samples: &mut [u16],
    known: &mut [u8],
    kept: &mut [i64],
    strides: &[u16; 24],
    levels: &[u8],
    table: &[u8],
    earlier: &[usize],
    later: &[usize],
    f: usize,
) -> [i64; 24]
    requires { let p = plan levels.now table.now in Strides p strides.now × Sound p earlier.now × Sound p later.now × Sound p (f ∷ [])
        × Lent counts.old samples.old × Kept p known.old kept.old }
    ensures { let p = plan levels.now table.now in
        (result ≡ added (row_list p earlier.now f) (row_list p later.now f))
        × Lent counts.new samples.new × (length counts.new ≡ length counts.old)
        × KeptOn p known.old known.new kept.new }
{
    let mut total = [0i64; 24];
    tally_runs(
        &mut total, counts, samples, strides, levels, table, earlier, f,
    );
    tally_runs(
        &mut total, counts, samples, strides, levels, table, later, f,
    );
    settle(&mut total, counts, samples, known, kept, levels, table);
    counts.fill(0);
    total
}

// The row sums of run f over the runs given, of which f need not be one, by cells. Of one run no row is kept but that of cell 0.
fn row_by_cells(levels: &[u8], table: &[u8], runs: &[usize], f: usize) -> [i64; 24]
    requires { Sound (plan levels.now table.now) runs.now × Sound (plan levels.now table.now) (f ∷ []) }
    ensures { result ≡ row_list (plan levels.now table.now) runs.now f }
{
    let strides = strides_of(levels);
    let places = places_of(&strides, levels, 168);
    let mut counts = [0u16; 168];
    let mut samples = [0u16; 168];
    let mut known = [0u8; 1];
    let mut kept = [0i64; 24];
    row_in(
        &mut counts[..places],
        &mut samples[..places],
        &mut known,
        &mut kept,
        &strides,
        levels,
        table,
        runs,
        &runs[..0],
        f,
    )
}

// Whether it takes less to add each of the n pairs of a run at once than to count them by cell. Either way gives the same sums.
pub fn pairs_pay(levels: &[u8], n: usize) -> bool
    requires { (length levels.now ≤ most_columns) × (n ≤ most_runs) }
{
    if n < 32 {
        return true;
    }
    let strides = strides_of(levels);
    3 * n < places_of(&strides, levels, 1024)
}

// The row sums of run f over the runs given.
pub fn row(levels: &[u8], table: &[u8], runs: &[usize], f: usize) -> [i64; 24]
    requires { Sound (plan levels.now table.now) runs.now × Sound (plan levels.now table.now) (f ∷ []) }
    ensures { result ≡ row_list (plan levels.now table.now) runs.now f }
{
    if pairs_pay(levels, runs.len()) {
        return pairs::routines::row(levels, table, runs, f);
    }
    row_by_cells(levels, table, runs, f)
}
