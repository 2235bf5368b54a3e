// The projection frequency tables of an array, absolute and relative.
ghost use Rattle.std.specs.Prelude.{◌≤◌, IfOk};

use crate::lines::{line, refusal_line};
use rules::Refusal;
use std::io::Write;

// Of the 10,626 lines that a table can have, none of these arrays has more. One that had would print refusal 7.
const MOST_LINES: usize = 64;

fn table_lines<W: Write>(
    output: &mut W,
    name: &[u8],
    f: usize,
    answer: Result<usize, Refusal>,
    nums: &[u64; MOST_LINES],
    dens: &[u64; MOST_LINES],
    counts: &[u64; MOST_LINES],
)
    requires { IfOk answer (λ lines. lines ≤ 64) }
{
    match answer {
        Ok(lines) => {
            for ((num, den), count) in nums[..lines].iter().zip(dens).zip(counts) {
                let numbers = [f as u64, *num, *den, *count];
                line(output, name, &numbers);
            }
        }
        Err(refused) => refusal_line(output, refused),
    }
}

fn absolute<W: Write>(output: &mut W, levels: &[u8], table: &[u8], f: usize) {
    let mut nums = [0u64; MOST_LINES];
    let mut dens = [0u64; MOST_LINES];
    let mut counts = [0u64; MOST_LINES];
    let answer = projection_tables::absolute(levels, table, f, &mut nums, &mut dens, &mut counts);
    table_lines(output, b"absolute", f, answer, &nums, &dens, &counts);
}

fn relative<W: Write>(output: &mut W, levels: &[u8], table: &[u8], f: usize) {
    let mut nums = [0u64; MOST_LINES];
    let mut dens = [0u64; MOST_LINES];
    let mut counts = [0u64; MOST_LINES];
    let answer = projection_tables::relative(levels, table, f, &mut nums, &mut dens, &mut counts);
    table_lines(output, b"relative", f, answer, &nums, &dens, &counts);
}

// Both tables of each size from 1 to 4 that the array has columns for.
pub(crate) fn tables<W: Write>(output: &mut W, levels: &[u8], table: &[u8]) {
    for f in 1..=4 {
        if levels.len() < f {
            return;
        }
        absolute(output, levels, table, f);
        relative(output, levels, table, f);
    }
}
