// For our own crates: lines of an answer, put into a room one after the other. Each answers the place behind its bytes.
#![tactic(auto)]

ghost use Rattle.std.specs.Prelude.{◌≡◌, ◌+◌, ◌≤◌, length, Err};
ghost use Rattle.exact.specs.Lists.{into};
ghost use Rattle.text.specs.Bytes.{Put};
ghost use Rattle.lines.specs.Lines.{field, line_of, refusal_line};
ghost use Rattle.lines.specs.Given.{most_of_line};

use rules::Refusal;
use text::routines::write_number;

const SPACE: u8 = 32;

const LINE_FEED: u8 = 10;

// The number of bytes put into the room, and whose they are: those of the answer's lines, or of the refusal's line.
#[derive(Clone, Copy, Debug, PartialEq, Eq)]
pub struct Written {
    pub bytes: usize,
    pub answer: Result<(), Refusal>,
}

pub fn write_bytes(bytes: &[u8], room: &mut [u8], at: usize) -> usize
    requires { at + length bytes.now ≤ length room.old }
    ensures { Put bytes.now (length bytes.now) at room.old result room.new }
{
    let end = at + bytes.len();
    room[at..end].copy_from_slice(bytes);
    end
}

fn write_field(number: u64, room: &mut [u8], at: usize) -> usize
    requires { at + 21 ≤ length room.old }
    ensures { Put (field number) 21 at room.old result room.new }
{
    room[at] = SPACE;
    write_number(number, room, at + 1)
}

// What the line is about, and its fields.
pub fn write_line(name: &[u8], numbers: &[u64], room: &mut [u8], at: usize) -> usize
    requires { at + most_of_line name.now numbers.now ≤ length room.old }
    ensures { let xs = numbers.now in
        Put (line_of name.now xs) (most_of_line name.now xs) at room.old result room.new }
{
    let mut end = write_bytes(name, room, at);
    for number in numbers {
        end = write_field(*number, room, end);
    }
    room[end] = LINE_FEED;
    end + 1
}

pub fn write_refusal(refused: Refusal, room: &mut [u8]) -> usize
    requires { 71 ≤ length room.old }
    ensures { Put (refusal_line refused) 71 0 room.old result room.new }
{
    let numbers = [refused.number, refused.first as u64, refused.second as u64];
    write_line(b"refused", &numbers, room, 0)
}

// An answer that is the one line of its refusal.
pub fn write_refused(refused: Refusal, room: &mut [u8]) -> Written
    requires { 71 ≤ length room.old }
    ensures answer { result.answer ≡ Err refused }
    ensures bytes { Put (refusal_line refused) 71 0 room.old result.bytes room.new }
{
    Written {
        bytes: write_refusal(refused, room),
        answer: Err(refused),
    }
}

// The same for a program that prints a refusal: the number of bytes in front of the room.
pub fn refusal_line(refused: Refusal, room: &mut [u8]) -> usize
    requires { 71 ≤ length room.old }
    ensures bytes { result ≡ length (refusal_line refused) }
    ensures room { room.new ≡ into (refusal_line refused) room.old }
{
    write_refusal(refused, room)
}
