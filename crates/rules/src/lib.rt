// A refusal: its number and two place numbers (document 01, "Refusal numbers"). A call answers its value, or the refusal.
#![tactic(auto)]

ghost use Rattle.std.specs.Prelude.{◌≡◌, [], ◌∷◌, ◌≤◌};
ghost use Rattle.rules.specs.Refusals.{plain, placed, refusal, answered, refusal_in, too_few, number_or, largest_number};

use exact::signed;

pub mod sizes;

#[derive(Clone, Copy, Debug, PartialEq, Eq)]
pub struct Refusal {
    pub number: u64,
    pub first: usize,
    pub second: usize,
}

impl Refusal {
    // A refusal that names no place.
    pub fn plain(number: u64) -> Refusal
        ensures { result ≡ plain number }
    {
        Refusal {
            number,
            first: 0,
            second: 0,
        }
    }

    // A refusal that names a column, a line, or a run and a column.
    pub fn placed(number: u64, first: usize, second: usize) -> Refusal
        ensures { result ≡ placed number first second }
    {
        Refusal {
            number,
            first,
            second,
        }
    }

    // Refusal 10, where fewer runs stand than a call needs.
    pub fn too_few(needed: usize, standing: usize) -> Result<(), Refusal>
        ensures { result ≡ answered (refusal (too_few needed standing ∷ [])) tt }
    {
        if standing < needed {
            return Err(Refusal::plain(10));
        }
        Ok(())
    }

    // What a C program gets: a number, or the refusal's number negated.
    pub fn number_or(answer: Result<i64, Refusal>) -> i64
        requires { (refusal_in answer).number ≤ largest_number }
        ensures { result ≡ number_or answer }
    {
        match answer {
            Ok(value) => value,
            Err(refused) => signed::sub(0, signed::of_u64(refused.number)),
        }
    }
}
