// For our own crates: W(I) of many sets of columns of one plan. Of each smaller set J the product of its levels times its squared
// combination counts, T(J), is worked out once; W(I) is the alternating sum of T over the parts of I.
#![tactic(auto)]

ghost use Rattle.std.specs.Prelude.{◌≡◌, [], ◌+◌, ◌≤◌, length, set};
ghost use Rattle.exact.specs.Lists.{from};
ghost use Rattle.rules.specs.Plan.{plan, level, entry};
ghost use Rattle.words.specs.Words.{word_of};
ghost use Rattle.part_sums.specs.Counters.{counters_of};
ghost use Rattle.part_sums.specs.Stored.{places, stored_at, filled_by, over_stored};
ghost use Rattle.part_sums.specs.Given.{Counting, Filling, Readable, Worded};

use counters::squares;
use exact::signed;
use parts::longer;

pub mod counters;
pub mod prepared;

// The sum over the parts of these columns, plus where an even number of columns is left out. The columns taken before have the place `at`
// in the room; `top` stands for the set of all columns.
fn over_stored(
    room: &[i64],
    base: usize,
    columns: &[usize],
    at: usize,
    top: i64,
    whole: bool,
) -> i64
    requires { Readable base room.now top whole at columns.now }
    ensures { result ≡ over_stored base room.now top whole at columns.now }
{
    if columns.len() == 0 {
        if whole {
            return top;
        }
        return room[at];
    }
    let i = columns[0];
    let others = &columns[1..];
    let with = over_stored(room, base, others, at * base + i + 1, top, whole);
    let without = over_stored(room, base, others, at, top, false);
    signed::sub(with, without)
}

// Puts T of every set into its place that has the columns taken, whose place is `at`, and up to `left` more of the columns `rest`. The runs'
// numbers are shared by all sets that begin with the same columns.
fn fill(
    levels: &[u8],
    table: &[u8],
    runs: &[usize],
    digits: &[u8],
    all: &[u16],
    f: usize,
    base: usize,
    rest: &[usize],
    left: usize,
    at: usize,
    product: usize,
    numbers: &[u16],
    room: &mut [i64],
    counters: &mut [u16],
)
    requires counting { Counting (plan levels.now table.now) runs.now f digits.now all.now counters.old }
    requires filling { Filling (plan levels.now table.now) runs.now rest.now left f base at product numbers.now × (places base f ≤ length room.old) }
    ensures room { let p = plan levels.now table.now in
        room.new ≡ filled_by base (stored_at base p runs.now) left at rest.now room.old }
    ensures counters { counters.new ≡ counters_of (length counters.old) [] }
{
    if left == 0 {
        return;
    }
    if rest.len() == 0 {
        return;
    }
    let n = runs.len();
    let i = rest[0];
    let taken = longer(numbers, levels[i], &digits[i * n..]);
    let more = product * usize::from(levels[i]);
    let place = at * base + i + 1;
    let counted = squares(&taken[..n], more, all, counters);
    room[place] = signed::mul(signed::of_size(more), counted);
    let others = &rest[1..];
    fill(
        levels,
        table,
        runs,
        digits,
        all,
        f,
        base,
        others,
        left - 1,
        place,
        more,
        &taken[..n],
        room,
        counters,
    );
    fill(
        levels, table, runs, digits, all, f, base, others, left, at, product, numbers, room,
        counters,
    );
}

// T of every set of up to k columns, each in its place; the empty set's in the first.
pub fn fill_room(
    levels: &[u8],
    table: &[u8],
    runs: &[usize],
    digits: &[u8],
    all: &[u16],
    k: usize,
    columns: &[usize],
    room: &mut [i64],
    counters: &mut [u16],
)
    requires counting { Counting (plan levels.now table.now) runs.now k digits.now all.now counters.old }
    requires columns_value { (columns.now ≡ from 0 (length levels.now)) × (places (length levels.now + 1) k ≤ length room.old) }
    ensures room { let p = plan levels.now table.now in
        let base = length levels.now + 1 in
        let U = stored_at base p runs.now in
        room.new ≡ filled_by base U k 0 columns.now (set room.old 0 (U 0)) }
    ensures counters { counters.new ≡ counters_of (length counters.old) [] }
{
    let n = runs.len();
    let base = levels.len() + 1;
    let numbers = [0u16; 256];
    room[0] = squares(&numbers[..n], 1, all, counters);
    fill(
        levels,
        table,
        runs,
        digits,
        all,
        k,
        base,
        columns,
        k,
        0,
        1,
        &numbers[..n],
        room,
        counters,
    );
}

// W(I) of f columns, of the runs' numbers in them: one counting, and the stored T of the smaller parts.
pub fn word(
    levels: &[u8],
    table: &[u8],
    runs: &[usize],
    digits: &[u8],
    all: &[u16],
    f: usize,
    columns: &[usize],
    product: usize,
    numbers: &[u16],
    room: &[i64],
    counters: &mut [u16],
) -> i64
    requires counting { Counting (plan levels.now table.now) runs.now f digits.now all.now counters.old }
    requires worded { Worded (plan levels.now table.now) runs.now f columns.now product numbers.now room.now }
    ensures word { let p = plan levels.now table.now in
        result ≡ word_of (level p) (entry p) runs.now columns.now }
    ensures counters { counters.new ≡ counters_of (length counters.old) [] }
{
    let base = levels.len() + 1;
    let counted = squares(numbers, product, all, counters);
    let top = signed::mul(signed::of_size(product), counted);
    over_stored(room, base, columns, 0, top, true)
}
