// For our own crates: the ratio of one set of columns, from the runs' numbers in all of them but the last. A walk over the sets keeps these
// numbers for every set that begins with the same columns.
#![tactic(auto)]

ghost use Rattle.std.specs.Prelude.{◌≡◌, [], ℕ, ◌+◌, ◌*◌, ◌≤◌, ◌<◌, length, get_or, take, pos};
ghost use Rattle.rules.specs.Plan.{plan, level, entry, most_runs};
ghost use Rattle.parts.specs.Parts.{longer, OnlyWord};
ghost use Rattle.set_words.specs.Given.{Projection, Tabled};
ghost use Rattle.set_words.specs.SetWords.{relative_of};
ghost use Rattle.set_ratios.specs.Given.{tallied, Empty, squares_in, cleared, numbers_in};

use counts::routines::product_of;
use exact::fractions::{Fraction, reduced};
use set_words::routines::smallest_level;

// A set that has no other word has at most 16 combinations a run.
const MOST_COMBINATIONS: usize = 4096;

// Counts the numbers with one digit more, of a column of so many levels.
fn count(numbers: &[u16], level: u8, digits: &[u8], counters: &mut [u16])
    requires numbers_len_bound { (length numbers.now ≤ most_runs) × (length numbers.now ≤ length digits.now) }
    requires by_index { (k : ℕ) → k < length numbers.now → get_or numbers.now k 0 * level + get_or digits.now k 0 < length counters.old }
    requires counters_value { counters.old ≡ tallied (length counters.old) [] }
    ensures { counters.new ≡ tallied (length counters.old) (longer level numbers.now digits.now) }
{
    let levels = usize::from(level);
    for (k, number) in numbers.iter().enumerate() {
        let number = usize::from(*number) * levels + usize::from(digits[k]);
        counters[number] += 1;
    }
}

// The squares of the first counters, added up; these counters are zero again.
fn take_squares(counters: &mut [u16], many: usize) -> u64
    requires many_in_bounds { (many ≤ length counters.old) × (length counters.old ≤ 4096) }
    requires by_index { (k : ℕ) → k < length counters.old → get_or counters.old k 0 ≤ most_runs }
    ensures squares { pos result ≡ squares_in (take many counters.old) }
    ensures counters { counters.new ≡ cleared many counters.old }
{
    let mut total: u64 = 0;
    let front = &mut counters[..many];
    for counter in front.iter_mut() {
        let times = u64::from(*counter);
        total += times * times;
        *counter = 0;
    }
    total
}

// The squared counts of the numbers with one digit more, which are below `many`. Every counter is zero before and after.
fn squares(numbers: &[u16], level: u8, digits: &[u8], many: usize, counters: &mut [u16]) -> u64
    requires numbers_len_bound { (length numbers.now ≤ most_runs) × (length numbers.now ≤ length digits.now) }
    requires by_index { (k : ℕ) → k < length numbers.now → get_or numbers.now k 0 * level + get_or digits.now k 0 < many }
    requires many_in_bounds { (many ≤ length counters.old) × Empty [] counters.old }
    ensures squares { pos result ≡ squares_in (tallied many (longer level numbers.now digits.now)) }
    ensures counters { counters.new ≡ counters.old }
{
    count(numbers, level, digits, counters);
    take_squares(counters, many)
}

// The relative value of a set of columns that have no other word. The last column has so many levels; `numbers` are the runs' numbers
// in the columns before it, and `digits` their entries in it.
pub fn ratio(
    levels: &[u8],
    table: &[u8],
    runs: &[usize],
    columns: &[usize],
    numbers: &[u16],
    last: u8,
    digits: &[u8],
    counters: &mut [u16],
) -> Fraction
    requires tabled { Tabled (plan levels.now table.now) runs.now
        × (Projection (plan levels.now table.now) columns.now × OnlyWord (plan levels.now table.now) runs.now columns.now) }
    requires numbers_in_bounds { (length numbers.now ≤ length digits.now)
        × (longer last numbers.now digits.now ≡ numbers_in (plan levels.now table.now) runs.now columns.now) }
    requires empty { Empty runs.now counters.old }
    ensures value { let p = plan levels.now table.now in
        result ≡ relative_of (level p) (entry p) runs.now columns.now }
    ensures counters { counters.new ≡ counters.old }
{
    let lowest = smallest_level(levels, columns);
    if lowest == 1 {
        return Fraction { num: 0, den: 1 };
    }
    let n = runs.len() as u64;
    let combinations = product_of(levels, columns, MOST_COMBINATIONS);
    let squares = squares(numbers, last, digits, combinations, counters);
    let word = combinations as u64 * squares - n * n;
    reduced(word, n * n * (u64::from(lowest) - 1))
}
