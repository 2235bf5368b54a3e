// The tables of a C program: a plan, a mark for each run and a size; the lines go into three lent rooms.
#![tactic(auto)]

ghost use Rattle.std.specs.Prelude.{◌≡◌};
ghost use Rattle.rules.specs.Plan.{plan};
ghost use Rattle.projection_tables.specs.Tables.{rooms, table_answer, table_rooms};
ghost use Rattle.marked.specs.Marked.{marked_runs, of_marked};

use marked::marked_runs;
use projection_tables::routines::table_answer;
use rules::Refusal;
use run_words::words_wanted;

// The table for size f, absolute or relative, of the runs that stand: the number of its lines.
pub fn table_marked(
    levels: &[u8],
    table: &[u8],
    marks: &[u8],
    f: usize,
    relative: bool,
    nums: &mut [u64],
    dens: &mut [u64],
    counts: &mut [u64],
) -> Result<usize, Refusal>
    ensures answer { let p = plan levels.now table.now in
        let marks = marks.entry.now in
        let R = rooms nums.old dens.old counts.old in
        result ≡ table_answer p (marked_runs p marks) (of_marked p marks) relative f R }
    ensures rooms { let p = plan levels.now table.now in
        let marks = marks.entry.now in
        let R = rooms nums.old dens.old counts.old in
        rooms nums.new dens.new counts.new ≡ table_rooms p (marked_runs p marks) (of_marked p marks) relative f R }
{
    let standing = marked_runs(levels, table, marks)?;
    let runs = standing.as_slice();
    let words = words_wanted(relative, levels, table, runs);
    table_answer(levels, table, runs, &words, f, relative, nums, dens, counts)
}
