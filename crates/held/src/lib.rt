// The held plan: its own copy of levels and entries, the runs that stand, and their words (document 01, "The held plan").
// It goes in by value and comes back by value; a call may take as given that it came from an opening or an earlier call.
#![tactic(auto)]

ghost use Rattle.std.specs.Prelude.{◌≡◌};
ghost use Rattle.held.specs.Held.{IsHeld, plan_in};

use rules::Refusal;
use rules::sizes::MOST_ENTRIES;

pub mod calls;
mod measures;
pub mod routines;

// A mark is true while its run stands. Places past the columns and the runs hold zero and false.
#[derive(Clone, Copy)]
pub struct Held {
    pub columns: usize,
    pub runs: usize,
    pub levels: [u8; 24],
    pub entries: [u8; MOST_ENTRIES],
    pub marks: [bool; 256],
    pub words: [i64; 24],
}

impl Held {
    pub fn levels(&self) -> &[u8]
        requires { IsHeld self.now }
        ensures { result.now ≡ (plan_in self.now).levels }
    {
        &self.levels[..self.columns]
    }

    pub fn table(&self) -> &[u8]
        requires { IsHeld self.now }
        ensures { result.now ≡ (plan_in self.now).table }
    {
        &self.entries[..self.runs * self.columns]
    }
}

// What every call on a held plan hands back: the plan, and the answer.
#[derive(Clone, Copy)]
pub struct Answered<T> {
    pub held: Held,
    pub answer: Result<T, Refusal>,
}
