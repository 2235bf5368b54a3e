// Sets of columns, numbered in dictionary order.
#![tactic(auto)]

mod binomials;
pub mod routines;

ghost use Rattle.std.specs.Prelude.{◌≡◌};
ghost use Rattle.rules.specs.Refusals.{refusal, answered};
ghost use Rattle.sets.specs.Sets.{size_checks, place_answer, set_answer};

use exact::listed::Numbers;
use rules::Refusal;
use rules::sizes::MOST_COLUMNS;

// The refusal of a question on f of m columns: 1, then 6.
fn check_sizes(m: usize, f: usize) -> Result<(), Refusal>
    ensures { result ≡ answered (refusal (size_checks m f)) tt }
{
    if m < 1 || MOST_COLUMNS < m {
        return Err(Refusal::plain(1));
    }
    routines::check_size(m, f)
}

// The place of a set of f of m columns, in dictionary order.
pub fn place(m: usize, f: usize, columns: &[usize]) -> Result<usize, Refusal>
    ensures { result ≡ place_answer m f columns.now }
{
    check_sizes(m, f)?;
    routines::check_set(m, f, columns)?;
    Ok(routines::place(m, columns))
}

// The set of f of m columns at a place, in dictionary order, zero in any place left over.
pub fn set_at(m: usize, f: usize, k: usize) -> Result<Numbers<4>, Refusal>
    ensures { result ≡ set_answer m f k }
{
    check_sizes(m, f)?;
    if routines::binomial(m, f) <= k {
        return Err(Refusal::plain(8));
    }
    Ok(routines::set_at(m, f, k))
}
