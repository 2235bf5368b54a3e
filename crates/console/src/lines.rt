// Finding a line of a text.
ghost use Rattle.std.specs.Prelude.{◌≡◌, ◌≤◌, length};
ghost use Rattle.console.specs.Lines.{lines_end, line_after};

const LINE_FEED: u8 = 10;

// How many bytes the first lines take, each with the byte 10 that ends it: all bytes where the text has fewer lines.
pub fn lines_end(text: &[u8], count: usize) -> usize
    ensures bytes { result ≡ lines_end text.now count }
    ensures within { result ≤ length text.now }
{
    let mut left = count;
    for (at, byte) in text.iter().enumerate() {
        if left == 0 {
            return at;
        }
        if *byte == LINE_FEED {
            left -= 1;
        }
    }
    text.len()
}

// The line that stands behind so many lines, with the byte 10 that ends it: no bytes past the last line.
pub fn line_after(text: &[u8], above: usize) -> &[u8]
    ensures { result.now ≡ line_after text.now above }
{
    let start = lines_end(text, above);
    let rest = &text[start..];
    let size = lines_end(rest, 1);
    &rest[..size]
}
