// For our own crates: the checks of a projection, and the place of a set among the sets of its size, whatever the size.
ghost use Rattle.std.specs.Prelude.{◌≡◌, [], ◌∷◌, ◌≤◌, ◌<◌, T};
ghost use Rattle.exact.specs.Lists.{holds};
ghost use Rattle.rules.specs.Refusals.{refusal, answered, bad_size, bad_set, is_set};
ghost use Rattle.sets.specs.Sets.{binom, place_of, set_at};
ghost use Rattle.sets.specs.Given.{Binomials};

use crate::binomials::BINOMIALS;
use exact::listed::Numbers;
use rules::Refusal;

// The number of sets of b of a columns.
pub fn binomial(a: usize, b: usize) -> usize
    requires { (a ≤ 24) × (b ≤ 24) }
    ensures { result ≡ binom a b }
{
    let i = a * 25 + b;
    BINOMIALS[i]
}

// All of them, laid out for who looks more than once.
fn all_binomials() -> [usize; 625]
    ensures { Binomials result }
{
    BINOMIALS
}

// The same number, looked up in them.
fn looked_up(binomials: &[usize; 625], a: usize, b: usize) -> usize
    requires { Binomials binomials.now × ((a ≤ 24) × (b ≤ 24)) }
    ensures { result ≡ binom a b }
{
    let i = a * 25 + b;
    binomials[i]
}

// Whether the numbers are columns of m, rising.
pub fn is_set(m: usize, columns: &[usize]) -> bool
    ensures { result ≡ is_set m columns.now }
{
    let mut low = 0;
    for column in columns {
        if *column < low || m <= *column {
            return false;
        }
        low = *column + 1;
    }
    true
}

// Whether the column is among those of a set.
pub fn holds(columns: &[usize], column: usize) -> bool
    ensures { result ≡ holds column columns.now }
{
    columns.contains(&column)
}

// Refusal 6, of a projection on f of m columns.
pub fn check_size(m: usize, f: usize) -> Result<(), Refusal>
    ensures { result ≡ answered (refusal (bad_size m f ∷ [])) tt }
{
    if f < 1 || 4 < f || m < f {
        return Err(Refusal::plain(6));
    }
    Ok(())
}

// Refusals 6 and 8, of a projection on these f of m columns.
pub fn check_set(m: usize, f: usize, columns: &[usize]) -> Result<(), Refusal>
    ensures { result ≡ answered (refusal (bad_size m f ∷ bad_set m f columns.now ∷ [])) tt }
{
    check_size(m, f)?;
    if columns.len() != f || !is_set(m, columns) {
        return Err(Refusal::plain(8));
    }
    Ok(())
}

// The place of a set among the sets of its size of m columns. A column that is left out passes the sets that have it.
pub fn place(m: usize, columns: &[usize]) -> usize
    requires { (m ≤ 24) × T (is_set m columns.now) }
    ensures { result ≡ place_of m columns.now }
{
    let binomials = all_binomials();
    let mut place = 0;
    let mut column = 0;
    let mut taken = 0;
    while taken < columns.len() {
        if columns[taken] == column {
            taken += 1;
        } else {
            place += looked_up(&binomials, m - column - 1, columns.len() - taken - 1);
        }
        column += 1;
    }
    place
}

// The set at place k among the sets of j of m columns. The sets that have the column come first.
pub fn set_at<const N: usize>(m: usize, j: usize, k: usize) -> Numbers<N>
    requires { (m ≤ 24) × (j ≤ m) × (j ≤ N) × (N ≤ 24) × (k < binom m j) }
    ensures { result ≡ set_at m j k }
{
    let binomials = all_binomials();
    let mut columns = Numbers::new();
    let mut left = k;
    let mut column = 0;
    while columns.len() < j {
        let having = looked_up(&binomials, m - column - 1, j - columns.len() - 1);
        if left < having {
            columns.push(column);
        } else {
            left -= having;
        }
        column += 1;
    }
    columns
}
