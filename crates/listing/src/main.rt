// Reads plan text and writes its listing.
#![tactic(auto)]

use listing_lines::MOST_BYTES;
use listing_lines::routines::write_listing;

fn main(rt: HostRuntime) {
    let mut output = rt.stdout();
    let mut errors = rt.stderr();
    let mut text = console::text_room();
    let read = console::read_text(&mut rt.stdin(), &mut text);
    if let Some(error) = read.failed {
        console::not_read(&mut errors, &error);
        return;
    }
    let size = read.size;
    let mut lines = [0u8; MOST_BYTES];
    let bytes = write_listing(&text[..size], &mut lines);
    if let Err(refused) = console::check_text(&text[..size]) {
        console::refuse(
            &mut output,
            &mut errors,
            &lines[..bytes],
            &text[..size],
            refused,
        );
        return;
    }
    console::write(&mut output, &mut errors, &lines[..bytes]);
}
