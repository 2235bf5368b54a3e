// The listing of each text that an argument names, one after the other.
#![tactic(auto)]

use console::arguments::{MOST_PATH, argument_count};
use listing_lines::MOST_BYTES;
use std::io::Write;
use std::rt::{Env, Files};

fn list<R: Env + Files, O: Write, E: Write>(
    rt: &R,
    output: &mut O,
    errors: &mut E,
    argument: usize,
) {
    let mut path = [0u8; MOST_PATH];
    let Ok(length) = rt.arg(argument, &mut path) else {
        return;
    };
    let mut text = console::text_room();
    let read = console::read_file(rt, errors, &path[..length], &mut text);
    if read.failed.is_some() {
        return;
    }
    let size = read.size;
    let mut lines = [0u8; MOST_BYTES];
    if let Ok(bytes) = listing_lines::listing(&text[..size], &mut lines) {
        console::write(output, errors, &lines[..bytes]);
    }
}

fn main(rt: HostRuntime) {
    let n = argument_count(&rt);
    for i in 1..n {
        list(&rt, &mut rt.stdout(), &mut rt.stderr(), i);
    }
}
