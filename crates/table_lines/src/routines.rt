// For our own crates: the lines of a table, put into a room one after the other. Each answers the place behind its bytes.
ghost use Rattle.std.specs.Prelude.{◌≡◌, ◌+◌, ◌*◌, ◌≤◌, length};
ghost use Rattle.exact.specs.Lists.{each};
ghost use Rattle.rules.specs.Plan.{plan};
ghost use Rattle.rules.specs.Refusals.{refusal, answered, refusal_in};
ghost use Rattle.projection_tables.specs.Tables.{rooms, lines_in};
ghost use Rattle.projection_tables.specs.Given.{Wide, Ranked};
ghost use Rattle.text.specs.Bytes.{Put};
ghost use Rattle.table_lines.specs.TableLines.{head_line, value_line, print_checks, lines_beside};
ghost use Rattle.table_lines.specs.Given.{most_bytes};

use lines::{Written, write_line, write_refused};
use projection_tables::routines::table_answer;

// No table has more lines: there are so many sets of 4 of 24 columns.
const MOST_LINES: usize = 10_626;

// Which table it is, its size, and how many lines follow.
fn write_head(relative: bool, f: usize, lines: usize, room: &mut [u8], at: usize) -> usize
    requires { at + 51 ≤ length room.old }
    ensures { Put (head_line relative f lines) 51 at room.old result room.new }
{
    let numbers = [f as u64, lines as u64];
    if relative {
        return write_line(b"relative", &numbers, room, at);
    }
    write_line(b"table", &numbers, room, at)
}

// The lines in the first places of three rooms.
fn write_values(
    nums: &[u64],
    dens: &[u64],
    counts: &[u64],
    lines: usize,
    room: &mut [u8],
    at: usize,
) -> usize
    requires { Wide lines (rooms nums.now dens.now counts.now) × (at + lines * 69 ≤ length room.old) }
    ensures { let R = rooms nums.now dens.now counts.now in
        Put (each (lines_in R lines) value_line) (lines * 69) at room.old result room.new }
{
    let mut end = at;
    for (k, num) in nums[..lines].iter().enumerate() {
        let numbers = [*num, dens[k], counts[k]];
        end = write_line(b"value", &numbers, room, end);
    }
    end
}

// The lines of the table of some runs of a plan, whose words stand beside them, or the one line of the refusal: 6, then 16. The table is
// made in rooms that hold every table.
pub fn write_table(
    levels: &[u8],
    table: &[u8],
    runs: &[usize],
    words: &[i64; 24],
    f: usize,
    relative: bool,
    room: &mut [u8],
) -> Written
    requires ranked { Ranked (plan levels.now table.now) runs.now words.now relative }
    requires most_bytes_in_bounds { most_bytes ≤ length room.old }
    ensures answer { let p = plan levels.now table.now in
        result.answer ≡ answered (refusal (print_checks p runs.now relative f)) tt }
    ensures bytes { let p = plan levels.now table.now in
        Put (lines_beside p runs.now relative f (refusal_in result.answer)) most_bytes 0 room.old result.bytes room.new }
{
    let mut nums = [0u64; MOST_LINES];
    let mut dens = [0u64; MOST_LINES];
    let mut counts = [0u64; MOST_LINES];
    let lines = match table_answer(
        levels,
        table,
        runs,
        words,
        f,
        relative,
        &mut nums,
        &mut dens,
        &mut counts,
    ) {
        Ok(lines) => lines,
        Err(refused) => return write_refused(refused, room),
    };
    let head = write_head(relative, f, lines, room, 0);
    let bytes = write_values(&nums, &dens, &counts, lines, room, head);
    Written {
        bytes,
        answer: Ok(()),
    }
}
