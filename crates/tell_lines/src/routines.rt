// For our own crates: the lines of an answer, put into a room one after the other. Each answers the place behind its bytes.
ghost use Rattle.std.specs.Prelude.{◌≡◌, true, cond, [], ◌∷◌, ◌+◌, ◌-◌, ◌*◌, ◌≤◌, ◌<◌, length};
ghost use Rattle.exact.specs.Lists.{first, holds};
ghost use Rattle.rules.specs.Plan.{plan, entry, most_columns};
ghost use Rattle.rules.specs.Refusals.{refusal, answered, refusal_in};
ghost use Rattle.plan.specs.Good.{Sound};
ghost use Rattle.text.specs.Bytes.{Put, bytes};
ghost use Rattle.lines.specs.Lines.{line_of};
ghost use Rattle.lines.specs.Given.{most_of_line};
ghost use Rattle.tell.specs.Tell.{cell};
ghost use Rattle.tell.specs.Given.{Asked};
ghost use Rattle.tell.specs.Evidence.{most_groups};
ghost use Rattle.tell.specs.Answer.{tell_checks};
ghost use Rattle.tell_lines.specs.TellLines.{tell_lines, lines_beside};
ghost use Rattle.tell_lines.specs.Parts.{
  most_bytes,
  most_fields,
  column_of,
  absent_lines_of,
  members_of,
  group_lines_of,
  pair_lines_of,
  Linked,
  Shown,
  numbers_of,
  Numbered,
  place_of,
  cell_line_of,
  cell_line_at,
  cell_lines_to,
  level_lines_of,
  split_lines_of,
  Answered,
};

use exact::fractions::Fraction;
use exact::listed::Numbers;
use lines::{Written, write_line, write_refused};
use rules::sizes::{MOST_COLUMNS, MOST_RUNS};
use sets::routines::holds;
use tell::routines::{tell_answer, words_figure};
use tell::{Joins, Told};

// No columns have more cells.
const MOST_CELLS: usize = 2_000_000_000;

// A place for each of the most levels that a column has.
const MOST_GROUPS: usize = 16;

// No line has more numbers: one, and one for each column.
const MOST_FIELDS: usize = 25;

// ---- what the lines show

// The entry of a run in a column.
fn entry_at(levels: &[u8], table: &[u8], run: usize, column: usize) -> usize
    requires { Asked (plan levels.now table.now) (run ∷ []) column [] }
    ensures { result ≡ entry (plan levels.now table.now) run column }
{
    let place = run * levels.len() + column;
    table[place] as usize
}

// What the runs have in a column.
fn column_of(levels: &[u8], table: &[u8], runs: &[usize], column: usize) -> Numbers<MOST_RUNS>
    requires { Asked (plan levels.now table.now) runs.now column [] }
    ensures { result ≡ column_of (plan levels.now table.now) runs.now column }
{
    let mut entries = Numbers::new();
    for run in runs {
        entries.push(entry_at(levels, table, *run, column));
    }
    entries
}

// The cell of a run: what it has in the columns.
fn cell_of(levels: &[u8], table: &[u8], run: usize, others: &[usize]) -> Numbers<MOST_COLUMNS>
    requires { let p = plan levels.now table.now in Sound p (run ∷ []) × Shown p others.now }
    ensures { result ≡ cell (entry (plan levels.now table.now)) others.now run }
{
    let mut entries = Numbers::new();
    for column in others {
        entries.push(entry_at(levels, table, run, *column));
    }
    entries
}

// The numbers of the cells that the runs are in, in dictionary order.
fn numbers_of(levels: &[u8], table: &[u8], runs: &[usize], others: &[usize]) -> Numbers<MOST_RUNS>
    requires { let p = plan levels.now table.now in Sound p runs.now × Shown p others.now }
    ensures { result ≡ numbers_of (plan levels.now table.now) runs.now others.now }
{
    let mut numbers = Numbers::new();
    for run in runs {
        numbers.push(counts::routines::combination(levels, table, *run, others));
    }
    numbers
}

// The levels below s that are in group k, rising.
fn members_of(groups: &[u8; 16], s: usize, k: usize) -> Numbers<MOST_GROUPS>
    requires { s ≤ most_groups }
    ensures { result ≡ members_of groups.now s k }
{
    let mut members = Numbers::new();
    for (x, group) in groups[..s].iter().enumerate() {
        if usize::from(*group) == k {
            members.push(x);
        }
    }
    members
}

// ---- the lines

// A line of runs, columns or levels.
fn write_numbers(name: &[u8], numbers: &[usize], room: &mut [u8], at: usize) -> usize
    requires few { length numbers.now ≤ most_fields }
    requires room { at + most_of_line name.now numbers.now ≤ length room.old }
    ensures { let xs = numbers.now in
        Put (line_of name.now xs) (most_of_line name.now xs) at room.old result room.new }
{
    let mut fields = [0u64; MOST_FIELDS];
    for (k, number) in numbers.iter().enumerate() {
        fields[k] = *number as u64;
    }
    write_line(name, &fields[..numbers.len()], room, at)
}

// A line of a number and others behind it.
fn write_headed(name: &[u8], head: usize, others: &[usize], room: &mut [u8], at: usize) -> usize
    requires few { length others.now ≤ most_columns }
    requires room { at + most_of_line name.now (head ∷ others.now) ≤ length room.old }
    ensures { let xs = head ∷ others.now in
        Put (line_of name.now xs) (most_of_line name.now xs) at room.old result room.new }
{
    let mut numbers = Numbers::<MOST_FIELDS>::new();
    numbers.push(head);
    for other in others {
        numbers.push(*other);
    }
    write_numbers(name, numbers.as_slice(), room, at)
}

// What was asked.
fn write_asked(column: usize, others: &[usize], room: &mut [u8], at: usize) -> usize
    requires { (length others.now ≤ most_columns) × (at + 530 ≤ length room.old) }
    ensures { Put (line_of (bytes "tell") (column ∷ others.now)) 530 at room.old result room.new }
{
    write_headed(b"tell", column, others, room, at)
}

// Yes or no.
fn write_told(tells: bool, room: &mut [u8], at: usize) -> usize
    requires { at + 11 ≤ length room.old }
    ensures { Put (cond tells (line_of (bytes "answer yes") []) (line_of (bytes "answer no") [])) 11 at room.old result room.new }
{
    if tells {
        return write_line(b"answer yes", &[], room, at);
    }
    write_line(b"answer no", &[], room, at)
}

// A line for each of the s levels that is not among the entries.
fn write_absent(entries: &[usize], s: usize, room: &mut [u8], at: usize) -> usize
    requires { (s ≤ most_groups) × (at + s * 28 ≤ length room.old) }
    ensures { Put (absent_lines_of entries.now s) (s * 28) at room.old result room.new }
{
    let mut end = at;
    for x in 0..s {
        if !holds(entries, x) {
            let level = [x as u64];
            end = write_line(b"absent", &level, room, end);
        }
    }
    end
}

// The line of the group named k.
fn write_group(groups: &[u8; 16], s: usize, k: usize, room: &mut [u8], at: usize) -> usize
    requires { (s ≤ most_groups) × (at + 342 ≤ length room.old) }
    ensures { Put (line_of (bytes "group") (members_of groups.now s k)) 342 at room.old result room.new }
{
    let members = members_of(groups, s, k);
    write_numbers(b"group", members.as_slice(), room, at)
}

// A line for each group whose lowest level is among the entries.
fn write_groups(groups: &[u8; 16], entries: &[usize], s: usize, room: &mut [u8], at: usize) -> usize
    requires { (s ≤ most_groups) × (at + s * 342 ≤ length room.old) }
    ensures { Put (group_lines_of groups.now entries.now s) (s * 342) at room.old result room.new }
{
    let mut end = at;
    for (x, group) in groups[..s].iter().enumerate() {
        if usize::from(*group) == x && holds(entries, x) {
            end = write_group(groups, s, x, room, end);
        }
    }
    end
}

// A line for each pair of runs by which two groups became one.
fn write_pairs(
    levels: &[u8],
    table: &[u8],
    column: usize,
    joins: Joins,
    room: &mut [u8],
    at: usize,
) -> usize
    requires { Linked (plan levels.now table.now) column joins × (at + joins.many * 89 ≤ length room.old) }
    ensures { Put (pair_lines_of (plan levels.now table.now) column joins) (joins.many * 89) at room.old result room.new }
{
    let mut end = at;
    for (k, f) in joins.left[..joins.many].iter().enumerate() {
        let g = joins.right[k];
        let x = entry_at(levels, table, *f, column);
        let y = entry_at(levels, table, g, column);
        let numbers = [*f as u64, g as u64, x as u64, y as u64];
        end = write_line(b"pair", &numbers, room, end);
    }
    end
}

// The cell of a run, behind the name of its group.
fn write_cell(
    levels: &[u8],
    table: &[u8],
    group: usize,
    run: usize,
    others: &[usize],
    room: &mut [u8],
    at: usize,
) -> usize
    requires { let p = plan levels.now table.now in Sound p (run ∷ []) × (Shown p others.now × (at + 530 ≤ length room.old)) }
    ensures { Put (cell_line_of (plan levels.now table.now) others.now group run) 530 at room.old result room.new }
{
    let cell = cell_of(levels, table, run, others);
    write_headed(b"cell", group, cell.as_slice(), room, at)
}

// ---- the cells in dictionary order

// The least of the numbers from `low` on, and `end` where there is none below it.
fn next_number(numbers: &[usize], low: usize, end: usize) -> usize
    requires { low ≤ end }
    ensures { result ≡ first (λ k. holds k numbers.now) low (end - low) }
{
    let mut next = end;
    for number in numbers {
        if low <= *number && *number < next {
            next = *number;
        }
    }
    next
}

// The first place that holds the number, and the length where none does.
fn place_of(numbers: &[usize], number: usize) -> usize
    ensures { result ≡ place_of numbers.now number }
{
    numbers
        .iter()
        .position(|x| *x == number)
        .unwrap_or(numbers.len())
}

// The line of the cell with this number.
fn write_numbered(
    levels: &[u8],
    table: &[u8],
    runs: &[usize],
    column: usize,
    others: &[usize],
    groups: &[u8; 16],
    numbers: &[usize],
    number: usize,
    room: &mut [u8],
    at: usize,
) -> usize
    requires numbered { Numbered (plan levels.now table.now) runs.now column others.now numbers.now }
    requires numbers_value { (holds number numbers.now ≡ true) × (at + 530 ≤ length room.old) }
    ensures { let p = plan levels.now table.now in
        Put (cell_line_at p runs.now column others.now groups.now number) 530 at room.old result room.new }
{
    let run = runs[place_of(numbers, number)];
    let level = entry_at(levels, table, run, column);
    let group = usize::from(groups[level]);
    write_cell(levels, table, group, run, others, room, at)
}

// A line for each number that occurs below `end`, in their order.
fn write_cells(
    levels: &[u8],
    table: &[u8],
    runs: &[usize],
    column: usize,
    others: &[usize],
    groups: &[u8; 16],
    numbers: &[usize],
    end: usize,
    room: &mut [u8],
    at: usize,
) -> usize
    requires numbered { Numbered (plan levels.now table.now) runs.now column others.now numbers.now }
    requires runs_in_bounds { at + length runs.now * 530 ≤ length room.old }
    ensures { let p = plan levels.now table.now in
        let rs = runs.now in
        Put (cell_lines_to p rs column others.now groups.now end) (length rs * 530) at room.old result room.new }
{
    let mut after = at;
    let mut number = next_number(numbers, 0, end);
    while number < end {
        after = write_numbered(
            levels, table, runs, column, others, groups, numbers, number, room, after,
        );
        number = next_number(numbers, number + 1, end);
    }
    after
}

// The lines of the levels that no run has, and of the groups of the others.
fn write_levels(
    levels: &[u8],
    table: &[u8],
    runs: &[usize],
    column: usize,
    groups: &[u8; 16],
    room: &mut [u8],
    at: usize,
) -> usize
    requires { Asked (plan levels.now table.now) runs.now column [] × (at + 5920 ≤ length room.old) }
    ensures { let p = plan levels.now table.now in
        Put (level_lines_of p runs.now column groups.now) 5920 at room.old result room.new }
{
    let entries = column_of(levels, table, runs, column);
    let s = usize::from(levels[column]);
    let absent = write_absent(entries.as_slice(), s, room, at);
    write_groups(groups, entries.as_slice(), s, room, absent)
}

// The lines of the cells, where the answer is no.
fn write_split(
    tells: bool,
    levels: &[u8],
    table: &[u8],
    runs: &[usize],
    column: usize,
    others: &[usize],
    groups: &[u8; 16],
    room: &mut [u8],
    at: usize,
) -> usize
    requires fact { let p = plan levels.now table.now in Asked p runs.now column others.now × Shown p others.now }
    requires runs_in_bounds { at + length runs.now * 530 ≤ length room.old }
    ensures { let p = plan levels.now table.now in
        let rs = runs.now in
        Put (split_lines_of p rs column others.now groups.now tells) (length rs * 530) at room.old result room.new }
{
    if tells {
        return at;
    }
    let numbers = numbers_of(levels, table, runs, others);
    let end = counts::routines::product_of(levels, others, MOST_CELLS);
    write_cells(
        levels,
        table,
        runs,
        column,
        others,
        groups,
        numbers.as_slice(),
        end,
        room,
        at,
    )
}

// The lines of an answer that is not refused.
fn write_answer(
    levels: &[u8],
    table: &[u8],
    runs: &[usize],
    column: usize,
    others: &[usize],
    told: Told,
    words: Fraction,
    room: &mut [u8],
) -> usize
    requires fact { let p = plan levels.now table.now in Answered p runs.now column others.now told words }
    requires most_bytes_in_bounds { most_bytes ≤ length room.old }
    ensures { let p = plan levels.now table.now in
        Put (tell_lines p runs.now column others.now) most_bytes 0 room.old result room.new }
{
    let tells = told.tells;
    let joins = told.joins;
    let groups = &joins.groups;
    let figure = [words.num, words.den];
    let asked = write_asked(column, others, room, 0);
    let answered = write_told(tells, room, asked);
    let worded = write_line(b"words", &figure, room, answered);
    let grouped = write_levels(levels, table, runs, column, groups, room, worded);
    let paired = write_pairs(levels, table, column, joins, room, grouped);
    write_split(
        tells, levels, table, runs, column, others, groups, room, paired,
    )
}

// The lines of the answer for some runs of a plan, or the one line of the refusal.
pub fn write_tell(
    levels: &[u8],
    table: &[u8],
    runs: &[usize],
    column: usize,
    others: &[usize],
    room: &mut [u8],
) -> Written
    requires sound { Sound (plan levels.now table.now) runs.now × (1 ≤ length runs.now) }
    requires most_bytes_in_bounds { most_bytes ≤ length room.old }
    ensures answer { result.answer ≡ answered (refusal (tell_checks (plan levels.now table.now) column others.now)) tt }
    ensures bytes { let p = plan levels.now table.now in
        Put (lines_beside p runs.now column others.now (refusal_in result.answer)) most_bytes 0 room.old result.bytes room.new }
{
    let told = match tell_answer(levels, table, runs, column, others) {
        Ok(told) => told,
        Err(refused) => return write_refused(refused, room),
    };
    let words = words_figure(levels, table, runs, column, others);
    let bytes = write_answer(levels, table, runs, column, others, told, words, room);
    Written {
        bytes,
        answer: Ok(()),
    }
}
