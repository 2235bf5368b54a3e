// Projection frequency tables (document 01, "Strength, resolution, projections").
#![tactic(auto)]

ghost use Rattle.std.specs.Prelude.{◌≡◌, true, false};
ghost use Rattle.rules.specs.Plan.{plan, every_run};
ghost use Rattle.rules.specs.Refusals.{of_plan};
ghost use Rattle.projection_tables.specs.Tables.{rooms, table_answer, table_rooms};

use rules::Refusal;
use run_words::words_wanted;

pub mod routines;

// The table for size f, absolute or relative, of every run of a plan: its lines go into the lent rooms, and the answer is their number.
// A relative table is refused by 16 where f is above R.
pub fn frequencies(
    levels: &[u8],
    table: &[u8],
    f: usize,
    relative: bool,
    nums: &mut [u64],
    dens: &mut [u64],
    counts: &mut [u64],
) -> Result<usize, Refusal>
    ensures answer { let p = plan levels.now table.now in
        let R = rooms nums.old dens.old counts.old in
        result ≡ table_answer p (every_run p) (of_plan p) relative f R }
    ensures rooms { let p = plan levels.now table.now in
        let R = rooms nums.old dens.old counts.old in
        rooms nums.new dens.new counts.new ≡ table_rooms p (every_run p) (of_plan p) relative f R }
{
    let runs = plan::routines::checked_runs(levels, table)?;
    let words = words_wanted(relative, levels, table, runs.as_slice());
    routines::table_answer(
        levels,
        table,
        runs.as_slice(),
        &words,
        f,
        relative,
        nums,
        dens,
        counts,
    )
}

// The distinct values of W(I) / n² over all sets of f columns, rising, each with its count: three lent rooms for numerators,
// denominators and counts.
pub fn absolute(
    levels: &[u8],
    table: &[u8],
    f: usize,
    nums: &mut [u64],
    dens: &mut [u64],
    counts: &mut [u64],
) -> Result<usize, Refusal>
    ensures answer { let p = plan levels.now table.now in
        let R = rooms nums.old dens.old counts.old in
        result ≡ table_answer p (every_run p) (of_plan p) false f R }
    ensures rooms { let p = plan levels.now table.now in
        let R = rooms nums.old dens.old counts.old in
        rooms nums.new dens.new counts.new ≡ table_rooms p (every_run p) (of_plan p) false f R }
{
    frequencies(levels, table, f, false, nums, dens, counts)
}

// The same of W(I) / (n²(s - 1)), s being the smallest level in I; 16 where f is above R.
pub fn relative(
    levels: &[u8],
    table: &[u8],
    f: usize,
    nums: &mut [u64],
    dens: &mut [u64],
    counts: &mut [u64],
) -> Result<usize, Refusal>
    ensures answer { let p = plan levels.now table.now in
        let R = rooms nums.old dens.old counts.old in
        result ≡ table_answer p (every_run p) (of_plan p) true f R }
    ensures rooms { let p = plan levels.now table.now in
        let R = rooms nums.old dens.old counts.old in
        rooms nums.new dens.new counts.new ≡ table_rooms p (every_run p) (of_plan p) true f R }
{
    frequencies(levels, table, f, true, nums, dens, counts)
}
