// What every program does with its input and output.
#![tactic(auto)]

ghost use Rattle.std.specs.Prelude.{◌≡◌, ◌+◌, ◌<◌, length, take, IsNone, IsTrue};
ghost use Rattle.std.specs.Io.KnownBytes.{Appends, Consumes, IsAtEnd};
ghost use Rattle.rules.specs.Plan.{longest_text, most_columns, most_entries};
ghost use Rattle.rules.specs.Refusals.{answered};
ghost use Rattle.text.specs.Reader.{read_refusal};
ghost use Rattle.console.specs.Counts.{IsPrefixLen};

use lines::line_after;
use rules::Refusal;
use rules::sizes::{LONGEST_TEXT, MOST_COLUMNS, MOST_ENTRIES};
use std::fmt::Display;
use std::io::{Cursor, ErrorKind, Write};
use std::rt::Files;
use std::{fs, io, str};

pub mod arguments;
pub mod lines;

// One byte more than the longest text, so that a longer one is refused as such.
const TEXT_ROOM: usize = LONGEST_TEXT + 1;

const MALFORMED: u64 = 14;

// Of a longer line only its front is shown.
const MOST_SHOWN: usize = 600;

// The words of an error and the system's number of it take less.
const MOST_WORDS: usize = 320;

// How many bytes of a room were read, and the error of a read that failed after them.
#[derive(Clone, Copy)]
pub struct Read {
    pub size: usize,
    pub failed: Option<io::Error>,
}

// The room that a text is read into.
pub fn text_room() -> [u8; TEXT_ROOM]
    ensures { longest_text + 1 ≡ length result }
{
    [0; TEXT_ROOM]
}

fn read_once<R: io::Read>(reader: &mut R, room: &mut [u8]) -> Read
    ensures fits { IsPrefixLen result.size room.new }
    ensures taken { Consumes (R.remaining reader.old) (R.remaining reader.new) (take result.size room.new) }
    ensures whole { IsNone result.failed → result.size ≡ 0 → 0 < length room.new → IsAtEnd (R.remaining reader.new) }
{
    match reader.read(room) {
        Ok(size) => Read { size, failed: None },
        Err(error) => Read {
            size: 0,
            failed: Some(error),
        },
    }
}

// Reads until the room is full, the input ends or a read fails. What the reader gave stands in front of the room, also where a read failed.
pub fn read_text<R: io::Read>(reader: &mut R, room: &mut [u8]) -> Read
    ensures fits { IsPrefixLen result.size room.new }
    ensures taken { Consumes (R.remaining reader.old) (R.remaining reader.new) (take result.size room.new) }
    ensures whole { IsNone result.failed → result.size < length room.new → IsAtEnd (R.remaining reader.new) }
{
    let mut size = 0;
    while size < room.len() {
        let part = read_once(reader, &mut room[size..]);
        let more = part.size;
        if more == 0 {
            return Read {
                size,
                failed: part.failed,
            };
        }
        size += more;
    }
    Read { size, failed: None }
}

// A path that is not text names no file.
fn open<F: Files>(files: &F, path: &[u8]) -> io::Result<F::File> {
    match str::from_utf8(path) {
        Ok(path) => fs::open(files, path),
        Err(_) => Err(io::Error::from(ErrorKind::InvalidFilename)),
    }
}

// Reads a file, and says on standard error where that fails.
pub fn read_file<F: Files, E: Write>(
    files: &F,
    errors: &mut E,
    path: &[u8],
    room: &mut [u8],
) -> Read
    ensures { IsPrefixLen result.size room.new }
{
    let read = match open(files, path) {
        Ok(mut file) => read_text(&mut file, room),
        Err(error) => Read {
            size: 0,
            failed: Some(error),
        },
    };
    if let Some(error) = read.failed {
        fail(errors, path, &error);
    }
    read
}

// Says on standard error what failed and why: the system's words, without the number that std writes behind them.
fn fail<E: Write>(errors: &mut E, what: &[u8], error: &io::Error) {
    let mut cursor = Cursor::new([0u8; MOST_WORDS]);
    let _ = write!(cursor, "{error}");
    let room = cursor.into_inner();
    let text = str::from_utf8(&room).unwrap_or("");
    let why = match text.split_once(" (os error ") {
        Some((words, _)) => words,
        None => text.trim_end_matches('\0'),
    };
    say(errors, what);
    let _ = writeln!(errors, ": {why}");
}

// Says on standard error that standard input could not be read.
pub fn not_read<E: Write>(errors: &mut E, error: &io::Error) {
    fail(errors, b"not read", error);
}

// Says on standard error that standard output could not be written.
pub fn not_written<E: Write>(errors: &mut E, error: &io::Error) {
    fail(errors, b"not written", error);
}

// Writes to standard output, and says on standard error where that fails.
pub fn write<O: Write, E: Write>(output: &mut O, errors: &mut E, bytes: &[u8]) -> bool
    ensures { IsTrue result → Appends (O.contents output.old) (O.contents output.new) bytes.now }
{
    match output.write_all(bytes) {
        Ok(()) => true,
        Err(error) => {
            not_written(errors, &error);
            false
        }
    }
}

// What refuses a text: 13, 14 or 1 to 5.
pub fn check_text(text: &[u8]) -> Result<(), Refusal>
    ensures { result ≡ answered (read_refusal text.now most_columns most_entries) tt }
{
    let mut levels = [0u8; MOST_COLUMNS];
    let mut table = [0u8; MOST_ENTRIES];
    text::read(text, &mut levels, &mut table)?;
    Ok(())
}

// Writes to standard error. What cannot be said is passed over.
pub fn say<E: Write>(errors: &mut E, bytes: &[u8]) {
    let _ = errors.write_all(bytes);
}

// Writes a number to standard error, behind a space.
pub fn say_number<E: Write, N: Display + Copy>(errors: &mut E, number: N) {
    let _ = write!(errors, " {number}");
}

// A word, and behind it the bytes as numbers.
fn say_bytes<E: Write>(errors: &mut E, word: &[u8], bytes: &[u8]) {
    say(errors, word);
    for byte in bytes.iter().take(MOST_SHOWN) {
        say_number(errors, *byte);
    }
    say(errors, b"\n");
}

// The line of the levels and the malformed one, whose number counts from 1.
fn say_malformed<E: Write>(errors: &mut E, text: &[u8], number: usize) {
    say_bytes(errors, b"levels", line_after(text, 0));
    if number != 0 {
        say_bytes(errors, b"line", line_after(text, number - 1));
    }
}

// Says on standard error what refuses a text, and what is malformed in it.
pub fn say_refusal<E: Write>(errors: &mut E, refused: Refusal, text: &[u8]) {
    say(errors, b"refused");
    say_number(errors, refused.number);
    say_number(errors, refused.first);
    say_number(errors, refused.second);
    say(errors, b"\n");
    if refused.number == MALFORMED {
        say_malformed(errors, text, refused.first);
    }
}

// The line of a refusal goes to standard output, and what it says to standard error.
pub fn refuse<O: Write, E: Write>(
    output: &mut O,
    errors: &mut E,
    line: &[u8],
    text: &[u8],
    refused: Refusal,
) {
    if write(output, errors, line) {
        say_refusal(errors, refused, text);
    }
}
