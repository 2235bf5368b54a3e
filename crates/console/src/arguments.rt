// The arguments of a program: runs and columns, by number, and words.
ghost use Rattle.std.specs.Prelude.{◌≡◌, ◌≤◌, length};
ghost use Rattle.rules.specs.Plan.{most_runs};
ghost use Rattle.console.specs.Arguments.{number_named, number_meant};
ghost use Rattle.console.specs.Counts.{IsPrefixLen};

use std::env::FillError;
use std::rt::Env;

const ZERO: u8 = 48;

const NINE: u8 = 57;

// The system opens no longer path.
pub const MOST_PATH: usize = 4096;

// What stands where no number is named: no plan has so many runs or columns.
const NO_NUMBER: usize = 1000;

// The number that an argument names by one to three digits; any other bytes name none.
fn number_named(bytes: &[u8]) -> Option<usize>
    ensures { result ≡ number_named bytes.now }
{
    if bytes.is_empty() || 3 < bytes.len() {
        return None;
    }
    let mut number = 0;
    for byte in bytes {
        if *byte < ZERO || NINE < *byte {
            return None;
        }
        number = number * 10 + usize::from(*byte - ZERO);
    }
    Some(number)
}

// The number that an argument stands for: the one that it names, or one that no plan has.
fn number_meant(bytes: &[u8]) -> usize
    ensures { result ≡ number_meant bytes.now }
{
    number_named(bytes).unwrap_or(NO_NUMBER)
}

// The number named by one argument; there is none where the argument is missing or longer than eight bytes.
pub fn number_at<A: Env>(env: &A, argument: usize) -> usize {
    let mut bytes = [0u8; 8];
    match env.arg(argument, &mut bytes) {
        Ok(size) => number_meant(&bytes[..size]),
        Err(_) => NO_NUMBER,
    }
}

// The numbers named by the arguments from `first` on and before `end`, into the room, and how many they are. Arguments that the room does
// not hold are passed over.
pub fn numbers_at<A: Env>(env: &A, first: usize, end: usize, room: &mut [usize]) -> usize
    ensures { IsPrefixLen result room.new }
{
    let count = room.len().min(end.saturating_sub(first));
    for (place, argument) in room[..count].iter_mut().zip(first..end) {
        *place = number_at(env, argument);
    }
    count
}

// How many arguments there are, with the name of the program as the first.
pub fn argument_count<A: Env>(env: &A) -> usize {
    for k in 0..usize::MAX {
        if let Err(FillError::NotPresent) = env.arg(k, &mut []) {
            return k;
        }
    }
    usize::MAX
}

// The place of the argument `--`, and the number of arguments where there is none.
pub fn dashes<A: Env>(env: &A) -> usize {
    let arguments = argument_count(env);
    (1..arguments)
        .find(|k| is_word(env, *k, b"--"))
        .unwrap_or(arguments)
}

// Whether the argument is this word of eight bytes at most.
pub fn is_word<A: Env>(env: &A, argument: usize, word: &[u8]) -> bool {
    let mut bytes = [0u8; 8];
    match env.arg(argument, &mut bytes) {
        Ok(size) => &bytes[..size] == word,
        Err(_) => false,
    }
}

// The runs named behind the argument at this place, into a room for as many as a plan has runs: more than these are refused by then.
pub fn lost_runs<A: Env>(env: &A, dashes: usize, runs: &mut [usize]) -> usize
    requires { most_runs ≤ length runs.old }
    ensures { IsPrefixLen result runs.new }
{
    let arguments = argument_count(env);
    if arguments <= dashes {
        return 0;
    }
    numbers_at(env, dashes + 1, arguments, runs)
}
