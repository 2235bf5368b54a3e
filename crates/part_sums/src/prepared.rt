// For our own crates: what a walk over many sets of columns makes once.
ghost use Rattle.std.specs.Prelude.{◌≡◌, ◌≤◌, length};
ghost use Rattle.exact.specs.Lists.{from, filled_to};
ghost use Rattle.rules.specs.Plan.{plan, entry, most_columns, most_runs};
ghost use Rattle.plan.specs.Good.{Sound};
ghost use Rattle.counts.specs.Numbered.{Columns};
ghost use Rattle.parts.specs.Parts.{turned};

use parts::turned;

// The numbers below 256.
pub fn every_number() -> [u16; 256]
    ensures { result ≡ from 0 most_runs }
{
    let mut room = [0u16; 256];
    for (k, number) in room.iter_mut().enumerate() {
        *number = k as u16;
    }
    room
}

// The entries of the runs in the columns, column after column.
pub fn entries(levels: &[u8], table: &[u8], runs: &[usize], columns: &[usize]) -> [u8; 6144]
    requires sound { Sound (plan levels.now table.now) runs.now }
    requires columns { Columns levels.now columns.now × (length columns.now ≤ most_columns) }
    ensures { let p = plan levels.now table.now in
        result ≡ filled_to 6144 0 (turned (entry p) runs.now columns.now) }
{
    turned(levels, table, runs, columns)
}
