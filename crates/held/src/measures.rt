// What a change of mark takes from the routines below.
ghost use Rattle.std.specs.Prelude.{◌≡◌, [], ◌<◌};
ghost use Rattle.rules.specs.Plan.{plan};
ghost use Rattle.words.specs.Answers.{row_list, diagonal_list};
ghost use Rattle.held.specs.Held.{IsHeld, plan_in, standing_in};

use crate::Held;
use crate::routines::standing_numbers;
use words::Sums;

// The row sums of a run over the standing runs, of which it need not be one.
pub(crate) fn row_of(held: &Held, run: usize) -> Sums
    requires { IsHeld held.now × (run < held.now.runs) }
    ensures { result.sums ≡ row_list (plan_in held.now) (standing_in held.now) run }
{
    let standing = standing_numbers(held);
    words::routines::row(held.levels(), held.table(), standing.as_slice(), run)
}

// E_j, for each length j.
pub(crate) fn diagonal_of(held: &Held) -> [i64; 24]
    requires { IsHeld held.now }
    ensures { result ≡ diagonal_list (plan (plan_in held.now).levels []) }
{
    pairs::routines::diagonal(held.levels())
}
