// For our own crates: the lines, put into a room that holds every table.
ghost use Rattle.std.specs.Prelude.{◌≡◌, ◌≤◌, length};
ghost use Rattle.rules.specs.Refusals.{answered, refusal_in};
ghost use Rattle.held.specs.Held.{IsHeld};
ghost use Rattle.text.specs.Bytes.{Put};
ghost use Rattle.table_lines.specs.Given.{most_bytes};
ghost use Rattle.table_text.specs.TableText.{held_refusal, held_lines, table_refusal, table_text};

use crate::MOST_BYTES;
use held::Held;
use held::routines::standing_runs;
use lines::{Written, write_refused};
use standing_text::routines::read_left;
use table_lines::routines::write_table;

// The room that the lines are put into.
pub fn lines_room() -> [u8; MOST_BYTES]
    ensures { most_bytes ≡ length result }
{
    [0; MOST_BYTES]
}

// The standing runs of a held plan: refusals 10, 6 and 16.
pub fn write_held(held: &Held, f: usize, relative: bool, room: &mut [u8]) -> Written
    requires held { IsHeld held.now }
    requires most_bytes_in_bounds { most_bytes ≤ length room.old }
    ensures answer { result.answer ≡ answered (held_refusal relative f held.now) tt }
    ensures bytes { Put (held_lines relative f held.now (refusal_in result.answer)) most_bytes 0 room.old result.bytes room.new }
{
    let runs = match standing_runs(held) {
        Ok(runs) => runs,
        Err(refused) => return write_refused(refused, room),
    };
    write_table(
        held.levels(),
        held.table(),
        runs.as_slice(),
        &held.words,
        f,
        relative,
        room,
    )
}

// The runs left of a text: refusals 13, 14, 1 to 5, then those of the first strike that is refused, then 6 and 16.
pub fn write_text(text: &[u8], lost: &[usize], f: usize, relative: bool, room: &mut [u8]) -> Written
    requires { most_bytes ≤ length room.old }
    ensures answer { result.answer ≡ answered (table_refusal text.now lost.now relative f) tt }
    ensures bytes { Put (table_text text.now lost.now relative f) most_bytes 0 room.old result.bytes room.new }
{
    let left = read_left(text, lost);
    match left.answer {
        Ok(()) => write_held(&left.held, f, relative, room),
        Err(refused) => write_refused(refused, room),
    }
}
