// For our own crates: what each pair of different runs adds to the words, once. The pairs are counted by cell, in counters lent; beside each
// counter stands one pair of its cell, f * 256 + g. A pair whose cell has no counter is added at once.
ghost use Rattle.std.specs.Prelude.{◌≡◌, [], ◌∷◌, ◌+◌, ◌/◌, ◌%◌, ◌≤◌, ◌<◌, ◌^◌, length, drop};
ghost use Rattle.rules.specs.Plan.{plan, runs, every_run};
ghost use Rattle.plan.specs.Good.{Good, Sound};
ghost use Rattle.pairs.specs.Given.{Row, once_list};
ghost use Rattle.pairs.specs.Lists.{row_list};
ghost use Rattle.cells.specs.Cells.{window, Strides, pair_row};
ghost use Rattle.tally.specs.Tally.{added_times, Runs, Tally, Few, worth, Counted, Lent};

use cells::routines::cell;
use cells::strides::{places_of, strides_of};
use exact::signed;
use pairs::routines::{add_to, pair};

// The sums of a pair go into a total so many times.
pub fn add_times(total: &mut [i64; 24], more: &[i64], times: u16)
    requires { Row (2 ^ 61) total.old × Row (2 ^ 32) more.now }
    ensures { total.new ≡ added_times times total.old more.now }
{
    let times = signed::of_size(usize::from(times));
    for (j, sum) in total.iter_mut().enumerate() {
        *sum = signed::add(*sum, signed::mul(times, more[j]));
    }
}

// A pair is counted in its cell, or added to the total.
pub fn tally(
    total: &mut [i64; 24],
    counts: &mut [u16],
    samples: &mut [u16],
    strides: &[u16; 24],
    levels: &[u8],
    table: &[u8],
    f: usize,
    g: usize,
)
    requires { let p = plan levels.now table.now in
        Strides p strides.now × Sound p (f ∷ []) × Sound p (g ∷ []) × Row (2 ^ 60) total.old × Tally p counts.old samples.old × Few 65534 counts.old }
    ensures { let p = plan levels.now table.now in
        Counted p 1 (pair_row p f g) total.old counts.old samples.old total.new counts.new samples.new }
{
    let c = usize::from(cell(strides, levels, table, f, g));
    if c < counts.len() {
        counts[c] += 1;
        samples[c] = (f * 256 + g) as u16;
        return;
    }
    let sums = pair(levels, table, f, g);
    add_to(total, &sums[1..]);
}

// The pairs of run f with the later runs.
fn tally_later(
    total: &mut [i64; 24],
    counts: &mut [u16],
    samples: &mut [u16],
    strides: &[u16; 24],
    levels: &[u8],
    table: &[u8],
    f: usize,
)
    requires { let p = plan levels.now table.now in
        Good p × Strides p strides.now × (f < runs p) × Row (2 ^ 59) total.old × Tally p counts.old samples.old × Few 65025 counts.old }
    ensures { let p = plan levels.now table.now in
        Counted p 255 (row_list p (drop (f + 1) (every_run p)) f) total.old counts.old samples.old
        total.new counts.new samples.new }
{
    let n = table.len() / levels.len();
    for g in f + 1..n {
        tally(total, counts, samples, strides, levels, table, f, g);
    }
}

// The pairs of one cell go into the total.
pub fn settle_cell(total: &mut [i64; 24], levels: &[u8], table: &[u8], times: u16, x: u16)
    requires { let p = plan levels.now table.now in Row (2 ^ 60) total.old × (0 < times → Runs p x) }
    ensures { let p = plan levels.now table.now in
        total.new ≡ added_times times total.old (pair_row p (x / 256) (x % 256)) }
{
    if times == 0 {
        return;
    }
    let sums = pair(levels, table, usize::from(x / 256), usize::from(x % 256));
    add_times(total, &sums[1..], times);
}

// All pairs that are only counted go into the total.
fn settle(total: &mut [i64; 24], counts: &[u16], samples: &[u16], levels: &[u8], table: &[u8])
    requires { let p = plan levels.now table.now in Row (2 ^ 59) total.old × Tally p counts.now samples.now × Few 65535 counts.now }
    ensures { let p = plan levels.now table.now in
        total.new ≡ worth p total.old counts.now samples.now }
{
    for (times, x) in counts.iter().zip(samples) {
        settle_cell(total, levels, table, *times, *x);
    }
}

// Each pair of different runs once, counted by its cell.
fn once_by_cells(
    counts: &mut [u16],
    samples: &mut [u16],
    strides: &[u16; 24],
    levels: &[u8],
    table: &[u8],
) -> [i64; 24]
    requires { let p = plan levels.now table.now in Good p × Strides p strides.now × Lent counts.old samples.old }
    ensures { let p = plan levels.now table.now in result ≡ once_list p (every_run p) }
{
    let mut total = [0i64; 24];
    for f in (0..table.len() / levels.len()).rev() {
        tally_later(&mut total, counts, samples, strides, levels, table, f);
    }
    settle(&mut total, counts, samples, levels, table);
    total
}

// What each pair of different runs of an accepted plan adds to the words, once, with counters for those cells that the plan may have, N at
// most. A plan of few runs has few pairs in a cell.
pub fn once<const N: usize>(levels: &[u8], table: &[u8]) -> [i64; 24]
    requires { Good (plan levels.now table.now) × (N ≤ window) }
    ensures { let p = plan levels.now table.now in result ≡ once_list p (every_run p) }
{
    if table.len() / levels.len() < 12 {
        return pairs::routines::once(levels, table);
    }
    let strides = strides_of(levels);
    let places = places_of(&strides, levels, N);
    let mut counts = [0u16; N];
    let mut samples = [0u16; N];
    once_by_cells(
        &mut counts[..places],
        &mut samples[..places],
        &strides,
        levels,
        table,
    )
}
