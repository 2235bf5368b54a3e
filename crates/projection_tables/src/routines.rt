// For our own crates: the tables of some runs of a plan, each named by its number.
ghost use Rattle.std.specs.Prelude.{◌≡◌, [], ◌∷◌, ◌+◌, ◌≤◌, ◌<◌, leb, length, take};
ghost use Rattle.std.specs.List.{list_all};
ghost use Rattle.exact.specs.Lists.{into, first};
ghost use Rattle.exact.specs.Fractions.{ShortDenominator};
ghost use Rattle.rules.specs.Plan.{plan};
ghost use Rattle.rules.specs.Refusals.{refusal, answered};
ghost use Rattle.sets.specs.Sets.{binom, choose};
ghost use Rattle.set_words.specs.SetWords.{value_in};
ghost use Rattle.set_words.specs.Given.{Tabled, SizeOf};
ghost use Rattle.part_sums.specs.Counters.{counters_of};
ghost use Rattle.part_sums.specs.Given.{Counting, Worded};
ghost use Rattle.projection_tables.specs.Given.{Comparable, Fillable, Wide, Ranked, put_before, not_smaller, count_all, values_from, Tallied, Walking, Enough, is_little};
ghost use Rattle.projection_tables.specs.Tables.{table_in, rooms, lines_in, one_more, rooms_filled, bad_rooms, table_checks, rooms_beside};

use exact::fractions::{Fraction, Verdict, smaller_fraction};
use exact::lent::copy;
use exact::listed::Numbers;
use part_sums::prepared::{entries, every_number};
use part_sums::{fill_room, word};
use parts::longer;
use rules::Refusal;
use rules::sizes::MOST_COLUMNS;
use run_words::check_relative;
use set_words::routines::value;
use sets::routines::check_size;

// Puts x in before place `at` of the first `used`; the next place after those is free.
fn put_before(room: &mut [u64], used: usize, at: usize, x: u64)
    requires { (at ≤ used) × (used < length room.old) }
    ensures { room.new ≡ into (put_before at x (take used room.old)) room.old }
{
    let mut k = used;
    while at < k {
        room[k] = room[k - 1];
        k -= 1;
    }
    room[at] = x;
}

// The place of a value among the first `used`, which rise: that of the first which is not smaller. It is found by halves: the lines below
// `low` are smaller, and those from `high` on are not.
fn place_of(nums: &[u64], dens: &[u64], used: usize, value: Fraction) -> usize
    requires { Comparable nums.now dens.now used × ShortDenominator value }
    ensures { result ≡ first (not_smaller nums.now dens.now value) 0 used }
{
    let mut low = 0;
    let mut high = used;
    while low < high {
        let middle = low + (high - low) / 2;
        let line = Fraction {
            num: nums[middle],
            den: dens[middle],
        };
        if smaller_fraction(line, value) == Verdict::Better {
            low = middle + 1;
        } else {
            high = middle;
        }
    }
    low
}

// One set more of this value in the table of `used` lines: its line's count one higher, or a line of count 1 put in its place.
// The answer is the number of lines.
fn count_value(
    nums: &mut [u64],
    dens: &mut [u64],
    counts: &mut [u64],
    used: usize,
    value: Fraction,
) -> usize
    requires { Fillable used (rooms nums.old dens.old counts.old) × ShortDenominator value }
    ensures lines { let R = rooms nums.old dens.old counts.old in
        result ≡ length (one_more value (lines_in R used)) }
    ensures table { let R = rooms nums.old dens.old counts.old in
        rooms nums.new dens.new counts.new ≡ rooms_filled (one_more value (lines_in R used)) R }
{
    let at = place_of(nums, dens, used, value);
    if at < used {
        let line = Fraction {
            num: nums[at],
            den: dens[at],
        };
        if smaller_fraction(line, value) == Verdict::Equal {
            counts[at] = counts[at] + 1;
            return used;
        }
    }
    put_before(nums, used, at, value.num);
    put_before(dens, used, at, value.den);
    put_before(counts, used, at, 1);
    used + 1
}

// One set more in the table, from the runs' numbers in its columns. The answer is the number of lines.
fn count_set(
    levels: &[u8],
    table: &[u8],
    runs: &[usize],
    digits: &[u8],
    all: &[u16],
    f: usize,
    relative: bool,
    columns: &[usize],
    product: usize,
    numbers: &[u16],
    parts: &[i64],
    counters: &mut [u16],
    nums: &mut [u64],
    dens: &mut [u64],
    counts: &mut [u64],
    used: usize,
) -> usize
    requires counting { Counting (plan levels.now table.now) runs.now f digits.now all.now counters.old × Tabled (plan levels.now table.now) runs.now }
    requires worded { Worded (plan levels.now table.now) runs.now f columns.now product numbers.now parts.now × Fillable used (rooms nums.old dens.old counts.old) }
    ensures lines { let v = value_in relative (plan levels.now table.now) runs.now columns.now in
        let R = rooms nums.old dens.old counts.old in
        result ≡ length (one_more v (lines_in R used)) }
    ensures table { let v = value_in relative (plan levels.now table.now) runs.now columns.now in
        let R = rooms nums.old dens.old counts.old in
        rooms nums.new dens.new counts.new ≡ rooms_filled (one_more v (lines_in R used)) R }
    ensures counters { counters.new ≡ counters_of (length counters.old) [] }
{
    let word = word(
        levels, table, runs, digits, all, f, columns, product, numbers, parts, counters,
    );
    let value = value(levels, table, runs, columns, word, relative);
    count_value(nums, dens, counts, used, value)
}

// The table with the sets that have the columns taken and `left` more of the columns `rest`. The runs' numbers are shared by all sets that
// begin with the same columns. The answer is the number of lines.
fn walk(
    levels: &[u8],
    table: &[u8],
    runs: &[usize],
    digits: &[u8],
    all: &[u16],
    f: usize,
    relative: bool,
    rest: &[usize],
    left: usize,
    set: [usize; 4],
    depth: usize,
    product: usize,
    numbers: &[u16],
    parts: &[i64],
    counters: &mut [u16],
    nums: &mut [u64],
    dens: &mut [u64],
    counts: &mut [u64],
    used: usize,
) -> usize
    requires counting { Counting (plan levels.now table.now) runs.now f digits.now all.now counters.old }
    requires walking { Walking (plan levels.now table.now) runs.now (take depth set) rest.now left f product numbers.now parts.now × (depth + left ≡ f) × (length set ≡ 4) }
    requires tallied { Tallied (length (choose left rest.now)) used (rooms nums.old dens.old counts.old) }
    ensures lines { let p = plan levels.now table.now in
        let vs = values_from relative p runs.now (take depth set) (choose left rest.now) in
        let R = rooms nums.old dens.old counts.old in
        result ≡ length (count_all vs (lines_in R used)) }
    ensures table { let p = plan levels.now table.now in
        let vs = values_from relative p runs.now (take depth set) (choose left rest.now) in
        let R = rooms nums.old dens.old counts.old in
        rooms nums.new dens.new counts.new ≡ rooms_filled (count_all vs (lines_in R used)) R }
    ensures counters { counters.new ≡ counters_of (length counters.old) [] }
{
    if left == 0 {
        return count_set(
            levels,
            table,
            runs,
            digits,
            all,
            f,
            relative,
            &set[..depth],
            product,
            numbers,
            parts,
            counters,
            nums,
            dens,
            counts,
            used,
        );
    }
    if rest.len() < left {
        return used;
    }
    let n = runs.len();
    let i = rest[0];
    let taken = longer(numbers, levels[i], &digits[i * n..]);
    let more = product * (levels[i] as usize);
    let mut with = set;
    with[depth] = i;
    let others = &rest[1..];
    let passed = walk(
        levels,
        table,
        runs,
        digits,
        all,
        f,
        relative,
        others,
        left - 1,
        with,
        depth + 1,
        more,
        &taken[..n],
        parts,
        counters,
        nums,
        dens,
        counts,
        used,
    );
    walk(
        levels, table, runs, digits, all, f, relative, others, left, set, depth, product, numbers,
        parts, counters, nums, dens, counts, passed,
    )
}

// The table for size f, with PARTS places for the parts of the sets and COUNTERS counters. The answer is the number of lines.
fn tabulate_in<const PARTS: usize, const COUNTERS: usize>(
    levels: &[u8],
    table: &[u8],
    runs: &[usize],
    f: usize,
    relative: bool,
    nums: &mut [u64],
    dens: &mut [u64],
    counts: &mut [u64],
) -> usize
    requires tabled { Tabled (plan levels.now table.now) runs.now
        × (SizeOf (length levels.now) f × Wide (binom (length levels.now) f) (rooms nums.old dens.old counts.old)) }
    requires enough { Enough (plan levels.now table.now) f PARTS COUNTERS }
    ensures lines { let p = plan levels.now table.now in
        result ≡ length (table_in relative p runs.now f) }
    ensures table { let p = plan levels.now table.now in
        let R = rooms nums.old dens.old counts.old in
        rooms nums.new dens.new counts.new ≡ rooms_filled (table_in relative p runs.now f) R }
{
    let m = levels.len();
    let n = runs.len();
    let every = Numbers::<MOST_COLUMNS>::first(m);
    let columns = every.as_slice();
    let digits = entries(levels, table, runs, columns);
    let all = every_number();
    let set = [0usize; 4];
    let numbers = [0u16; 256];
    let mut parts = [0i64; PARTS];
    let mut counters = [0u16; COUNTERS];
    fill_room(
        levels,
        table,
        runs,
        &digits[..m * n],
        &all,
        f - 1,
        columns,
        &mut parts,
        &mut counters,
    );
    walk(
        levels,
        table,
        runs,
        &digits[..m * n],
        &all,
        f,
        relative,
        columns,
        f,
        set,
        0,
        1,
        &numbers[..n],
        &parts,
        &mut counters,
        nums,
        dens,
        counts,
        0,
    )
}

// Whether no column has more than 5 levels.
fn is_low(levels: &[u8]) -> bool
    ensures { result ≡ list_all (λ s. leb s 5) levels.now }
{
    levels.iter().all(|s| *s <= 5)
}

// Whether small rooms are enough: up to 8 columns, or sets of up to 3 of them, and no column of more than 5 levels.
#[tactic(auto, unfolding(crate::specs::Given::is_little))]
fn is_little(levels: &[u8], f: usize) -> bool
    ensures { result ≡ is_little levels.now f }
{
    is_low(levels) && (levels.len() <= 8 || f <= 3)
}

// The table for size f, in the first places of three rooms: one walk over the sets. The answer is the number of lines.
fn tabulate(
    levels: &[u8],
    table: &[u8],
    runs: &[usize],
    f: usize,
    relative: bool,
    nums: &mut [u64],
    dens: &mut [u64],
    counts: &mut [u64],
) -> usize
    requires { Tabled (plan levels.now table.now) runs.now
        × (SizeOf (length levels.now) f × Wide (binom (length levels.now) f) (rooms nums.old dens.old counts.old)) }
    ensures lines { let p = plan levels.now table.now in
        result ≡ length (table_in relative p runs.now f) }
    ensures table { let p = plan levels.now table.now in
        let R = rooms nums.old dens.old counts.old in
        rooms nums.new dens.new counts.new ≡ rooms_filled (table_in relative p runs.now f) R }
{
    if is_little(levels, f) {
        tabulate_in::<729, 625>(levels, table, runs, f, relative, nums, dens, counts)
    } else {
        tabulate_in::<15625, 65536>(levels, table, runs, f, relative, nums, dens, counts)
    }
}

// The table for size f in three lent rooms, and the number of its lines; refusal 7 where a room is too short. Nothing is written before
// the number of lines is known. There are at most 10,626 sets: 4 of 24 columns.
fn in_own_rooms(
    levels: &[u8],
    table: &[u8],
    runs: &[usize],
    f: usize,
    relative: bool,
    nums: &mut [u64],
    dens: &mut [u64],
    counts: &mut [u64],
) -> Result<usize, Refusal>
    requires { Tabled (plan levels.now table.now) runs.now × SizeOf (length levels.now) f }
    ensures answer { let p = plan levels.now table.now in
        let ls = table_in relative p runs.now f in
        let R = rooms nums.old dens.old counts.old in
        result ≡ answered (refusal (bad_rooms ls R ∷ [])) (length ls) }
    ensures rooms { let p = plan levels.now table.now in
        let ls = table_in relative p runs.now f in
        let R = rooms nums.old dens.old counts.old in
        rooms nums.new dens.new counts.new ≡ rooms_beside ls R (refusal (bad_rooms ls R ∷ [])) }
{
    let mut values = [0u64; 10626];
    let mut unders = [0u64; 10626];
    let mut sets = [0u64; 10626];
    let lines = tabulate(
        levels,
        table,
        runs,
        f,
        relative,
        &mut values,
        &mut unders,
        &mut sets,
    );
    if nums.len().min(dens.len()).min(counts.len()) < lines {
        return Err(Refusal::plain(7));
    }
    copy(&values[..lines], nums);
    copy(&unders[..lines], dens);
    copy(&sets[..lines], counts);
    Ok(lines)
}

// The same. Rooms that hold a line for every set are never too short, and the table is made in them.
pub fn frequencies(
    levels: &[u8],
    table: &[u8],
    runs: &[usize],
    f: usize,
    relative: bool,
    nums: &mut [u64],
    dens: &mut [u64],
    counts: &mut [u64],
) -> Result<usize, Refusal>
    requires { Tabled (plan levels.now table.now) runs.now × SizeOf (length levels.now) f }
    ensures answer { let p = plan levels.now table.now in
        let ls = table_in relative p runs.now f in
        let R = rooms nums.old dens.old counts.old in
        result ≡ answered (refusal (bad_rooms ls R ∷ [])) (length ls) }
    ensures rooms { let p = plan levels.now table.now in
        let ls = table_in relative p runs.now f in
        let R = rooms nums.old dens.old counts.old in
        rooms nums.new dens.new counts.new ≡ rooms_beside ls R (refusal (bad_rooms ls R ∷ [])) }
{
    let sets = sets::routines::binomial(levels.len(), f);
    if nums.len().min(dens.len()).min(counts.len()) < sets {
        return in_own_rooms(levels, table, runs, f, relative, nums, dens, counts);
    }
    Ok(tabulate(levels, table, runs, f, relative, nums, dens, counts))
}

// The answer for some runs of a plan: 6, of the size, then 16, and 7 last. Only the check of a relative table looks at the words.
pub fn table_answer(
    levels: &[u8],
    table: &[u8],
    runs: &[usize],
    words: &[i64; 24],
    f: usize,
    relative: bool,
    nums: &mut [u64],
    dens: &mut [u64],
    counts: &mut [u64],
) -> Result<usize, Refusal>
    requires { Ranked (plan levels.now table.now) runs.now words.now relative }
    ensures answer { let p = plan levels.now table.now in
        let rs = runs.now in
        let R = rooms nums.old dens.old counts.old in
        result ≡ answered (refusal (table_checks p rs relative f R)) (length (table_in relative p rs f)) }
    ensures rooms { let p = plan levels.now table.now in
        let rs = runs.now in
        let R = rooms nums.old dens.old counts.old in
        rooms nums.new dens.new counts.new ≡ rooms_beside (table_in relative p rs f) R (refusal (table_checks p rs relative f R)) }
{
    check_size(levels.len(), f)?;
    check_relative(relative, words, levels.len(), f)?;
    frequencies(levels, table, runs, f, relative, nums, dens, counts)
}
