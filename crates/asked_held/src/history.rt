// A plan led through a history of strikes and reinstatements, refused ones among them.
ghost use Rattle.std.specs.Prelude.{◌≡◌};
ghost use Rattle.rules.specs.Plan.{plan};
ghost use Rattle.held.specs.Held.{IsHeld, call_answer};
ghost use Rattle.asked_held.specs.Histories.{call_of, led};

use held::{Answered, Held};

// An even number strikes the run of half that number, and the odd number behind it reinstates that run.
pub fn called(held: Held, call: u64) -> Answered<()>
    requires { IsHeld held }
    ensures { result ≡ call_answer held (call_of call) }
{
    let run = (call / 2) as usize;
    if call % 2 == 0 {
        return held::calls::strike(held, run);
    }
    held::calls::reinstate(held, run)
}

// The plan opened, and after the calls of the history, one after the other.
pub fn led(levels: &[u8], table: &[u8], history: &[u64]) -> Held
    ensures { result ≡ led (plan levels.now table.now) history.now }
{
    let mut left = held::calls::open(levels, table).held;
    for call in history {
        left = called(left, *call).held;
    }
    left
}
