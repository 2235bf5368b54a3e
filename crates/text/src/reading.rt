// The reader's parts: a number, a line, all lines. Numbers go to one room in the order of the text.
ghost use Rattle.std.specs.Prelude.{◌≡◌, ◌≤◌, ◌*◌, length, get_or, drop};
ghost use Rattle.rules.specs.Refusals.{placed};
ghost use Rattle.text.specs.Text.{is_digit};
ghost use Rattle.text.specs.Reading.{number_of, number_at, Roomy, LineRead, TextRead};

use rules::Refusal;

const LINE_FEED: u8 = 10;

const COMMA: u8 = 44;

const ZERO: u8 = 48;

const NINE: u8 = 57;

// A number of the text, and how many bytes it takes.
#[derive(Clone, Copy)]
pub struct Number {
    pub value: u8,
    pub size: usize,
}

// A line that was read: where the next one begins, and how many numbers stand in the room then.
#[derive(Clone, Copy)]
pub struct Line {
    pub next: usize,
    pub count: usize,
}

// A text that was read: the number of columns, and that of all numbers.
#[derive(Clone, Copy)]
pub struct Lines {
    pub columns: usize,
    pub count: usize,
}

// The byte at a place, and zero past the end.
fn byte_at(text: &[u8], at: usize) -> u8
    ensures { result ≡ get_or text.now at 0 }
{
    if at < text.len() { text[at] } else { 0 }
}

fn is_digit(byte: u8) -> bool
    ensures { result ≡ is_digit byte }
{
    ZERO <= byte && byte <= NINE
}

// The number that begins with these two bytes, the second of which may stand after it.
fn number_of(first: u8, second: u8) -> Option<Number>
    ensures { result ≡ number_of first second }
{
    if !is_digit(first) {
        return None;
    }
    if !is_digit(second) {
        return Some(Number {
            value: first - ZERO,
            size: 1,
        });
    }
    if first == ZERO {
        return None;
    }
    Some(Number {
        value: (first - ZERO) * 10 + (second - ZERO),
        size: 2,
    })
}

// The number of one or two digits that begins at a place.
fn number_at(text: &[u8], at: usize) -> Option<Number>
    requires { at ≤ length text.now }
    ensures { result ≡ number_at (drop at text.now) }
{
    number_of(byte_at(text, at), byte_at(text, at + 1))
}

// Reads the line that begins at a place, its numbers to the room from place `stored` on: none where it is malformed.
pub(crate) fn read_line(text: &[u8], from: usize, numbers: &mut [u8], stored: usize) -> Option<Line>
    requires { Roomy text.now from numbers.old stored }
    ensures { LineRead text.now from numbers.old stored result numbers.new }
{
    let mut at = from;
    let mut count = stored;
    loop {
        let number = number_at(text, at)?;
        let after = byte_at(text, at + number.size);
        numbers[count] = number.value;
        count += 1;
        at = at + number.size + 1;
        if after == LINE_FEED {
            return Some(Line { next: at, count });
        }
        if after != COMMA {
            return None;
        }
    }
}

// Refusal 14, which names a line from 1 on.
fn malformed_in(line: usize) -> Refusal
    ensures { result ≡ placed 14 line 0 }
{
    Refusal::placed(14, line, 0)
}

// Reads every line, all numbers to the room in the order of the text: refusal 14.
pub(crate) fn read_lines(text: &[u8], numbers: &mut [u8]) -> Result<Lines, Refusal>
    requires { length text.now ≤ 2 * length numbers.old }
    ensures { TextRead text.now result numbers.new }
{
    let levels = read_line(text, 0, numbers, 0).ok_or(malformed_in(1))?;
    let columns = levels.count;
    let mut at = levels.next;
    let mut count = columns;
    let mut line = 2;
    while at < text.len() {
        let run = read_line(text, at, numbers, count).ok_or(malformed_in(line))?;
        if run.count != count + columns {
            return Err(malformed_in(line));
        }
        at = run.next;
        count = run.count;
        line += 1;
    }
    Ok(Lines { columns, count })
}
