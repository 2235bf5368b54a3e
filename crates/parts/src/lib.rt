// For our own crates: W(I) from counts. Of a set of up to 4 columns it is the sum, over all parts of the set, of the product of a part's
// levels times its squared combination counts, minus where an odd number of columns is left out.
#![tactic(auto)]

ghost use Rattle.std.specs.Prelude.{◌≡◌, [], map, ℕ, ◌+◌, ◌*◌, ◌≤◌, ◌<◌, length, get_or, pos};
ghost use Rattle.std.proofs.Math.Seq.{paste};
ghost use Rattle.exact.specs.Lists.{filled_to};
ghost use Rattle.rules.specs.Plan.{plan, level, entry, most_runs};
ghost use Rattle.plan.specs.Good.{Sound};
ghost use Rattle.words.specs.Words.{word_of};
ghost use Rattle.counts.specs.Numbered.{most_numbers, Columns};
ghost use Rattle.parts.specs.Parts.{counted, squares_of, sign, longer, over_parts, Weighed, turned};

use exact::signed;

// Counts the numbers, and adds up the squares of the counts: where a count goes from c to c + 1, its square grows by 2c + 1.
fn count(numbers: &[u16], counters: &mut [u16; 65536]) -> u64
    requires { (length numbers.now ≤ most_runs) × (counters.old ≡ counted []) }
    ensures squares { pos result ≡ squares_of numbers.now }
    ensures counters { counters.new ≡ counted numbers.now }
{
    let mut total: u64 = 0;
    for number in numbers {
        let number = usize::from(*number);
        let before = counters[number];
        total += 2 * u64::from(before) + 1;
        counters[number] = before + 1;
    }
    total
}

// Takes the numbers off the counters again.
fn clear(numbers: &[u16], counters: &mut [u16; 65536])
    requires { counters.old ≡ counted numbers.now }
    ensures { counters.new ≡ counted [] }
{
    for number in numbers {
        let number = usize::from(*number);
        counters[number] -= 1;
    }
}

// The squared counts of the numbers.
fn squares(numbers: &[u16], counters: &mut [u16; 65536]) -> i64
    requires { (length numbers.now ≤ most_runs) × (counters.old ≡ counted []) }
    ensures squares { result ≡ squares_of numbers.now }
    ensures counters { counters.new ≡ counted [] }
{
    let total = count(numbers, counters);
    clear(numbers, counters);
    signed::of_u64(total)
}

// Each number with one digit more, of a column of so many levels.
pub fn longer(numbers: &[u16], level: u8, digits: &[u8]) -> [u16; 256]
    requires numbers_len_bound { (length numbers.now ≤ most_runs) × (length numbers.now ≤ length digits.now) }
    requires by_index { (k : ℕ) → k < length numbers.now → get_or numbers.now k 0 * level + get_or digits.now k 0 < most_numbers }
    ensures { result ≡ filled_to 256 0 (longer level numbers.now digits.now) }
{
    let mut room = [0u16; 256];
    for (k, number) in numbers.iter().enumerate() {
        room[k] = *number * u16::from(level) + u16::from(digits[k]);
    }
    room
}

// The sum over the parts of these columns. The columns taken before gave the runs their numbers, and the part its weight: the product of
// their levels, with its sign.
fn over_parts(
    levels: &[u8],
    columns: &[usize],
    digits: &[u8],
    numbers: &[u16],
    weight: i64,
    counters: &mut [u16; 65536],
) -> i64
    requires { Weighed levels.now columns.now digits.now numbers.now weight × (counters.old ≡ counted []) }
    ensures sum { result ≡ over_parts weight numbers.now (map (λ i. get_or levels.now i 0) columns.now) digits.now }
    ensures counters { counters.new ≡ counted [] }
{
    if columns.len() == 0 {
        return signed::mul(weight, squares(numbers, counters));
    }
    let n = numbers.len();
    let i = columns[0];
    let level = levels[i];
    let taken = longer(numbers, level, digits);
    let heavier = signed::mul(signed::sub(0, signed::of_byte(level)), weight);
    let others = &columns[1..];
    let behind = &digits[n..];
    let with = over_parts(levels, others, behind, &taken[..n], heavier, counters);
    let without = over_parts(levels, others, behind, numbers, weight, counters);
    signed::add(with, without)
}

// Puts the entries of the runs in a column into the room, from place `at` on.
pub fn turn_column(
    levels: &[u8],
    table: &[u8],
    runs: &[usize],
    column: usize,
    at: usize,
    room: &mut [u8],
)
    requires sound { Sound (plan levels.now table.now) runs.now }
    requires column_in_bounds { (column < length levels.now) × (at + length runs.now ≤ length room.old) }
    ensures { let p = plan levels.now table.now in
        room.new ≡ paste room.old at (map (λ f. entry p f column) runs.now) (length runs.now) }
{
    let m = levels.len();
    for (k, run) in runs.iter().enumerate() {
        let start = *run * m;
        room[at + k] = table[start + column];
    }
}

// The entries of the runs in the columns, column after column, in the front of an empty room.
pub fn turn_columns(levels: &[u8], table: &[u8], runs: &[usize], columns: &[usize], room: &mut [u8])
    requires sound { Sound (plan levels.now table.now) runs.now }
    requires columns { Columns levels.now columns.now × (length columns.now * length runs.now ≤ length room.old) }
    requires room_value { room.old ≡ filled_to (length room.old) 0 [] }
    ensures { let p = plan levels.now table.now in
        room.new ≡ filled_to (length room.old) 0 (turned (entry p) runs.now columns.now) }
{
    let n = runs.len();
    for (t, column) in columns.iter().enumerate() {
        turn_column(levels, table, runs, *column, t * n, room);
    }
}

// The same, in a room of N entries.
pub fn turned<const N: usize>(
    levels: &[u8],
    table: &[u8],
    runs: &[usize],
    columns: &[usize],
) -> [u8; N]
    requires sound { Sound (plan levels.now table.now) runs.now }
    requires columns { Columns levels.now columns.now × (length columns.now * length runs.now ≤ N) }
    ensures { let p = plan levels.now table.now in
        result ≡ filled_to N 0 (turned (entry p) runs.now columns.now) }
{
    let mut room = [0; N];
    turn_columns(levels, table, runs, columns, &mut room);
    room
}

// The sign of the empty part: minus where an odd number of columns is left out.
fn sign(f: usize) -> i64
    requires { f ≤ 4 }
    ensures { result ≡ sign f }
{
    if f % 2 == 0 { 1 } else { -1 }
}

// W(I) of the runs. Every counter is zero before and after, so that no set pays for their number.
pub fn word(
    levels: &[u8],
    table: &[u8],
    runs: &[usize],
    columns: &[usize],
    counters: &mut [u16; 65536],
) -> i64
    requires sound { Sound (plan levels.now table.now) runs.now }
    requires columns { Columns levels.now columns.now × (length columns.now ≤ 4) }
    requires counters_value { counters.old ≡ counted [] }
    ensures word { let p = plan levels.now table.now in
        result ≡ word_of (level p) (entry p) runs.now columns.now }
    ensures counters { counters.new ≡ counted [] }
{
    let n = runs.len();
    let digits: [u8; 1024] = turned(levels, table, runs, columns);
    let numbers = [0u16; 256];
    let weight = sign(columns.len());
    over_parts(levels, columns, &digits, &numbers[..n], weight, counters)
}
