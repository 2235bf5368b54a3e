// For our own crates: the squared counts of some numbers, in counters that are zero before and after, so that no set pays for their number.
ghost use Rattle.std.specs.Prelude.{◌≡◌, ℕ, ◌+◌, ◌*◌, ◌≤◌, ◌<◌, length, get_or, drop};
ghost use mathlib.Core.List.{[], Memᴰ};
ghost use Rattle.exact.specs.Lists.{from};
ghost use Rattle.rules.specs.Plan.{most_runs};
ghost use Rattle.counts.specs.Numbered.{most_numbers};
ghost use Rattle.parts.specs.Parts.{squares_of};
ghost use Rattle.part_sums.specs.Counters.{counters_of, squared_sum, Numbers};

use exact::signed;

// Counts the number at place k.
fn count_one(numbers: &[u16], k: usize, counters: &mut [u16])
    requires numbers { Numbers (length counters.old) numbers.now × (k < length numbers.now) }
    requires counters_value { counters.old ≡ counters_of (length counters.old) (drop (k + 1) numbers.now) }
    ensures { counters.new ≡ counters_of (length counters.old) (drop k numbers.now) }
{
    let number = usize::from(numbers[k]);
    counters[number] += 1;
}

// Counts the first of the numbers, so many, from the last of them down.
fn tally_rest(numbers: &[u16], places: usize, counters: &mut [u16])
    requires numbers { Numbers (length counters.old) numbers.now × (places ≤ length numbers.now) }
    requires counters_value { counters.old ≡ counters_of (length counters.old) (drop places numbers.now) }
    ensures { counters.new ≡ counters_of (length counters.old) numbers.now }
{
    for k in (0..places).rev() {
        count_one(numbers, k, counters);
    }
}

// Counts the numbers, from the last down: four in a turn, which takes fewer tests of the place.
fn tally(numbers: &[u16], counters: &mut [u16])
    requires { Numbers (length counters.old) numbers.now × (counters.old ≡ counters_of (length counters.old) []) }
    ensures { counters.new ≡ counters_of (length counters.old) numbers.now }
{
    let mut k = numbers.len();
    while 3 < k {
        count_one(numbers, k - 1, counters);
        count_one(numbers, k - 2, counters);
        count_one(numbers, k - 3, counters);
        count_one(numbers, k - 4, counters);
        k -= 4;
    }
    tally_rest(numbers, k, counters);
}

// Adds up the squares of the counters, and clears them: at these places, among which each is that is not zero.
fn gather(places: &[u16], counters: &mut [u16]) -> u64
    requires numbers { Numbers (length counters.old) places.now × (squared_sum counters.old ≤ most_runs * most_runs) }
    requires by_index { (v : ℕ) → 0 < get_or counters.old v 0 → Memᴰ v places.now }
    ensures squares { result ≡ squared_sum counters.old }
    ensures counters { counters.new ≡ counters_of (length counters.old) [] }
{
    let mut total: u64 = 0;
    for place in places {
        let place = usize::from(*place);
        let count = u64::from(counters[place]);
        total += count * count;
        counters[place] = 0;
    }
    total
}

// The squared counts of numbers below `most`. Where there are fewer of those than numbers, the counters are passed through in a row.
pub fn squares(numbers: &[u16], most: usize, all: &[u16], counters: &mut [u16]) -> i64
    requires numbers { Numbers most numbers.now × (most ≤ length counters.old) × (length counters.old ≤ most_numbers) }
    requires all_value { (all.now ≡ from 0 most_runs) × (counters.old ≡ counters_of (length counters.old) []) }
    ensures squares { result ≡ squares_of numbers.now }
    ensures counters { counters.new ≡ counters_of (length counters.old) [] }
{
    tally(numbers, counters);
    if most <= numbers.len() {
        return signed::of_u64(gather(&all[..most], counters));
    }
    signed::of_u64(gather(numbers, counters))
}
