// Reads plan text and writes whether its runs tell a column from others acting together. The arguments name the column, then the others,
// and behind `--` the runs that were lost.
#![tactic(auto)]

use console::arguments::{dashes, lost_runs, number_at, numbers_at};
use lines::Written;
use rules::sizes::MOST_RUNS;
use tell_text::MOST_BYTES;
use tell_text::routines::write_text;

// One place more than a plan has columns, so that more others than these are refused by then.
const MOST_OTHERS: usize = 25;

fn main(rt: HostRuntime) {
    let mut output = rt.stdout();
    let mut errors = rt.stderr();
    let end = dashes(&rt);
    let column = number_at(&rt, 1);
    let mut others = [0usize; MOST_OTHERS];
    let many = numbers_at(&rt, 2, end, &mut others);
    let mut lost = [0usize; MOST_RUNS];
    let losses = lost_runs(&rt, end, &mut lost);
    let mut text = console::text_room();
    let read = console::read_text(&mut rt.stdin(), &mut text);
    if let Some(error) = read.failed {
        console::not_read(&mut errors, &error);
        return;
    }
    let size = read.size;
    let mut lines = [0u8; MOST_BYTES];
    let written: Written = write_text(
        &text[..size],
        &lost[..losses],
        column,
        &others[..many],
        &mut lines,
    );
    let bytes = written.bytes;
    if let Err(refused) = written.answer {
        console::refuse(
            &mut output,
            &mut errors,
            &lines[..bytes],
            &text[..size],
            refused,
        );
        return;
    }
    console::write(&mut output, &mut errors, &lines[..bytes]);
}
