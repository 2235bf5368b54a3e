// For our own crates: the sets of f of m columns one after the other, each made of the one before it.
#![tactic(auto)]

ghost use Rattle.std.specs.Prelude.{◌≡◌, ◌++◌, map, ℕ, suc, ◌+◌, ◌-◌, ◌^◌, ◌≤◌, ◌<◌, T, length, get_or, take};
ghost use Rattle.exact.specs.Lists.{from, into};
ghost use Rattle.rules.specs.Refusals.{is_set};
ghost use Rattle.next_sets.specs.Next.{next_set};

// The numbers from `low` on, in the whole room.
fn number(room: &mut [usize], low: usize)
    requires { low + length room.old < 2 ^ 64 }
    ensures { room.new ≡ from low (length room.old) }
{
    for (i, place) in room.iter_mut().enumerate() {
        *place = low + i;
    }
}

// The first set of f columns, in the front of the room.
pub fn first_set(set: &mut [usize], f: usize)
    requires { f ≤ length set.old }
    ensures { set.new ≡ into (from 0 f) set.old }
{
    number(&mut set[..f], 0);
}

// The place of the last column that can be raised, and 0 where there is none.
fn last_to_raise(set: &[usize], m: usize) -> usize
    requires { (1 ≤ length set.now) × (length set.now ≤ m) }
    ensures { (result < length set.now)
        × (next_set m set.now ≡ take result set.now ++ from (suc (get_or set.now result 0)) (length set.now - result)) }
{
    let f = set.len();
    for p in (1..f).rev() {
        if set[p] != m - f + p {
            return p;
        }
    }
    0
}

// The set of f of m columns in the front of the room becomes the next one. After the last set the room holds no set.
pub fn next_set(set: &mut [usize], f: usize, m: usize)
    requires { (f ≤ length set.old) × (f ≤ m) × (m ≤ 24) × T (is_set m (take f set.old)) }
    ensures { set.new ≡ into (next_set m (take f set.old)) set.old }
{
    if f == 0 {
        return;
    }
    let p = last_to_raise(&set[..f], m);
    let column = set[p] + 1;
    number(&mut set[p..f], column);
}

// The columns at these places, in the front of the room.
pub fn among(columns: &[usize], places: &[usize], set: &mut [usize])
    requires places_in_bounds { length places.now ≤ length set.old }
    requires by_index { (i : ℕ) → i < length places.now → get_or places.now i 0 < length columns.now }
    ensures { set.new ≡ into (map (λ i. get_or columns.now i 0) places.now) set.old }
{
    for (i, place) in places.iter().enumerate() {
        set[i] = columns[*place];
    }
}
