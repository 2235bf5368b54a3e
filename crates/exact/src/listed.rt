// Numbers in a row of at most N places, a list that needs no memory but its own: the library allocates nothing.
ghost use Rattle.std.specs.Prelude.{◌≡◌, List, ℕ, [], ◌∷◌, ◌++◌, ◌≤◌, ◌<◌, length, take};
ghost use Rattle.exact.specs.Lists.{from, filled_to};

use std::marker::Model;

#[derive(Clone, Copy, Debug, PartialEq, Eq)]
pub struct Numbers<const N: usize> {
    places: [usize; N],
    many: usize,
}

// Clauses see the list of the numbers. A place past the last holds zero.
impl<const N: usize> Model for Numbers<N> {
    ghost Value = { List ℕ };

    ghost view = { λ s. take s.many s.places };

    ghost invariant = { λ s. (s.many ≤ N) × (length s.places ≡ N) × (s.places ≡ filled_to N 0 (take s.many s.places)) };

    ghost inverse = { λ xs. record { places = filled_to N 0 xs; many = length xs } };
}

impl<const N: usize> Numbers<N> {
    pub fn new() -> Self
        ensures { result ≡ [] }
    {
        Numbers {
            places: [0; N],
            many: 0,
        }
    }

    // The n numbers from 0 on.
    pub fn first(n: usize) -> Self
        requires { n ≤ N }
        ensures { result ≡ from 0 n }
    {
        let mut places = [0; N];
        for k in 0..n {
            places[k] = k;
        }
        Numbers { places, many: n }
    }

    pub fn push(&mut self, number: usize)
        requires { length self.old < N }
        ensures { self.new ≡ self.old ++ number ∷ [] }
    {
        self.places[self.many] = number;
        self.many += 1;
    }

    pub fn len(&self) -> usize
        ensures { result ≡ length self.now }
    {
        self.many
    }

    // The whole row, with zero in each place left over.
    pub fn places(&self) -> [usize; N]
        ensures { result ≡ filled_to N 0 self.now }
    {
        let Numbers { places, .. } = self;
        *places
    }

    pub fn as_slice(&self) -> &[usize]
        ensures { result.now ≡ self.now }
    {
        &self.places[..self.many]
    }
}
