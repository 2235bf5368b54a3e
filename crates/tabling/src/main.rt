// Reads plan text and writes the projection table of its runs. The arguments are the size, then `relative` where that table is asked for,
// and behind `--` the runs that were lost.
#![tactic(auto)]

use console::arguments::{dashes, is_word, lost_runs, number_at};
use lines::Written;
use rules::sizes::MOST_RUNS;
use table_text::routines::write_text;

fn main(rt: HostRuntime) {
    let mut output = rt.stdout();
    let mut errors = rt.stderr();
    let end = dashes(&rt);
    let f = number_at(&rt, 1);
    let relative = is_word(&rt, 2, b"relative");
    let mut lost = [0usize; MOST_RUNS];
    let losses = lost_runs(&rt, end, &mut lost);
    let mut text = console::text_room();
    let read = console::read_text(&mut rt.stdin(), &mut text);
    if let Some(error) = read.failed {
        console::not_read(&mut errors, &error);
        return;
    }
    let size = read.size;
    let mut lines = table_text::routines::lines_room();
    let written: Written = write_text(&text[..size], &lost[..losses], f, relative, &mut lines);
    let bytes = written.bytes;
    if let Err(refused) = written.answer {
        console::refuse(
            &mut output,
            &mut errors,
            &lines[..bytes],
            &text[..size],
            refused,
        );
        return;
    }
    console::write(&mut output, &mut errors, &lines[..bytes]);
}
