// What the library says of the arrays of the sources: a plan text of data/ for each argument. Columns are counted from 1 here;
// docs/PUBLISHED.md has the tables one by one, tests/published compares them.
//
// l18 is 003's Table 4 (000, Tables 2 and 4, third rows). l18-345, l18-236 and l18-245 are three of its columns (003, Example 5);
// l18-without-2, l18-without-4 and l18-without-8 lack one (003, Example 8; 000, Table 9); l18-1248 has four (002, Table 4).
// oa18-first and oa18-second belong to 000's Tables 2 and 4, oa18-partial is 003's Table 1 with its misprint mended.
// oa16-regular and oa16-nonregular belong to 000's Table 3, oa16-mixed to 002's Table 5, l36 to 000's Table 5.
// oa32 is 000's Table 6 (and 7); oa32-1 to oa32-3 are the selections of its Table 8. oa32-design1, oa32-design3 and oa32-design9
// are 003's Table 7, oa8 its Table 2, oa9 its Example 1. oa12 stands in 002, section 4.1; pb12 is the cyclic one (002, section 4.2).
// Where a source names an array and does not print it, docs/PUBLISHED.md says how this one was made.
#![tactic(auto)]

use console::arguments::{MOST_PATH, argument_count};
use figures::{columns, generalized};
use lines::{put, refusal_line};
use rules::sizes::{MOST_COLUMNS, MOST_ENTRIES};
use std::io::Write;
use std::rt::{Env, Files};
use tables::tables;

mod figures;
mod lines;
mod tables;

fn show_plan<W: Write>(output: &mut W, name: &[u8], levels: &[u8], table: &[u8]) {
    put(output, b"array ");
    put(output, name);
    put(output, b"\n");
    tables(output, levels, table);
    generalized(output, levels, table);
    columns(output, levels, table);
}

fn show_text<W: Write>(output: &mut W, name: &[u8], text: &[u8]) {
    let mut levels = [0u8; MOST_COLUMNS];
    let mut table = [0u8; MOST_ENTRIES];
    match text::read(text, &mut levels, &mut table) {
        Ok(read) => {
            let m = read.columns;
            let entries = read.runs * m;
            show_plan(output, name, &levels[..m], &table[..entries]);
        }
        Err(refused) => refusal_line(output, refused),
    }
}

fn show_file<R: Env + Files, O: Write, E: Write>(
    rt: &R,
    output: &mut O,
    errors: &mut E,
    argument: usize,
) {
    let mut path = [0u8; MOST_PATH];
    let Ok(length) = rt.arg(argument, &mut path) else {
        return;
    };
    let name = &path[..length];
    let mut text = console::text_room();
    let read = console::read_file(rt, errors, name, &mut text);
    if read.failed.is_some() {
        return;
    }
    let size = read.size;
    show_text(output, name, &text[..size]);
}

fn main(rt: HostRuntime) {
    let n = argument_count(&rt);
    for i in 1..n {
        show_file(&rt, &mut rt.stdout(), &mut rt.stderr(), i);
    }
}
