// Reads plan text and writes what stands out in the plan: its sizes, the levels that occur in no run, and the runs made before.
#![tactic(auto)]

use rules::Refusal;
use rules::sizes::{MOST_COLUMNS, MOST_ENTRIES};
use std::io;
use std::io::Write;

// A line of output: its word and two numbers.
fn line<W: Write>(output: &mut W, word: &str, first: usize, second: usize) -> io::Result<()> {
    writeln!(output, "{word} {first} {second}")
}

// The levels of a column, below its number of them, that occur in no run.
fn show_absent<W: Write>(
    output: &mut W,
    levels: &[u8],
    table: &[u8],
    column: usize,
    count: u8,
) -> io::Result<()> {
    for level in 0..count {
        if survey::level_occurs(levels, table, column, level) == Ok(false) {
            line(output, "absent", column, usize::from(level))?;
        }
    }
    Ok(())
}

fn show_columns<W: Write>(output: &mut W, levels: &[u8], table: &[u8]) -> io::Result<()> {
    for (column, count) in levels.iter().enumerate() {
        show_absent(output, levels, table, column, *count)?;
    }
    Ok(())
}

fn show_repeated<W: Write>(
    output: &mut W,
    levels: &[u8],
    table: &[u8],
    runs: usize,
) -> io::Result<()> {
    for run in 0..runs {
        if let Ok(first) = survey::first_alike(levels, table, run) {
            if first < run {
                line(output, "repeated", run, first)?;
            }
        }
    }
    Ok(())
}

fn show_plan<W: Write>(output: &mut W, levels: &[u8], table: &[u8], runs: usize) -> io::Result<()> {
    line(output, "plan", runs, levels.len())?;
    show_columns(output, levels, table)?;
    show_repeated(output, levels, table, runs)
}

fn show_refusal<W: Write, E: Write>(
    output: &mut W,
    errors: &mut E,
    refused: Refusal,
    text: &[u8],
) -> io::Result<()> {
    let Refusal {
        number,
        first,
        second,
    } = refused;
    writeln!(output, "refused {number} {first} {second}")?;
    console::say_refusal(errors, refused, text);
    Ok(())
}

fn show_text<W: Write, E: Write>(output: &mut W, errors: &mut E, text: &[u8]) -> io::Result<()> {
    let mut levels = [0u8; MOST_COLUMNS];
    let mut table = [0u8; MOST_ENTRIES];
    match text::read(text, &mut levels, &mut table) {
        Ok(read) => {
            let entries = read.runs * read.columns;
            show_plan(
                output,
                &levels[..read.columns],
                &table[..entries],
                read.runs,
            )
        }
        Err(refused) => show_refusal(output, errors, refused, text),
    }
}

fn main(rt: HostRuntime) {
    let mut errors = rt.stderr();
    let mut text = console::text_room();
    let read = console::read_text(&mut rt.stdin(), &mut text);
    if let Some(error) = read.failed {
        console::not_read(&mut errors, &error);
        return;
    }
    let size = read.size;
    if let Err(error) = show_text(&mut rt.stdout(), &mut errors, &text[..size]) {
        console::not_written(&mut errors, &error);
    }
}
