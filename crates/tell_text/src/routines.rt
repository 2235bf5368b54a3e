// For our own crates: the lines, put into a room that holds every answer.
ghost use Rattle.std.specs.Prelude.{◌≡◌, ◌≤◌, length};
ghost use Rattle.rules.specs.Refusals.{answered, refusal_in};
ghost use Rattle.held.specs.Held.{IsHeld};
ghost use Rattle.text.specs.Bytes.{Put};
ghost use Rattle.tell_lines.specs.Parts.{most_bytes};
ghost use Rattle.tell_text.specs.TellText.{held_refusal, held_lines, tell_refusal, tell_text};

use held::Held;
use held::routines::standing_runs;
use lines::{Written, write_refused};
use standing_text::routines::read_left;
use tell_lines::routines::write_tell;

// The standing runs of a held plan: refusals 10 and 8.
pub fn write_held(held: &Held, column: usize, others: &[usize], room: &mut [u8]) -> Written
    requires held { IsHeld held.now }
    requires most_bytes_in_bounds { most_bytes ≤ length room.old }
    ensures answer { result.answer ≡ answered (held_refusal column others.now held.now) tt }
    ensures bytes { let J = others.now in
        Put (held_lines column J held.now (refusal_in result.answer)) most_bytes 0 room.old result.bytes room.new }
{
    let runs = match standing_runs(held) {
        Ok(runs) => runs,
        Err(refused) => return write_refused(refused, room),
    };
    write_tell(
        held.levels(),
        held.table(),
        runs.as_slice(),
        column,
        others,
        room,
    )
}

// The runs left of a text: refusals 13, 14, 1 to 5, then those of the first strike that is refused, then 8.
pub fn write_text(
    text: &[u8],
    lost: &[usize],
    column: usize,
    others: &[usize],
    room: &mut [u8],
) -> Written
    requires { most_bytes ≤ length room.old }
    ensures answer { result.answer ≡ answered (tell_refusal text.now lost.now column others.now) tt }
    ensures bytes { Put (tell_text text.now lost.now column others.now) most_bytes 0 room.old result.bytes room.new }
{
    let left = read_left(text, lost);
    match left.answer {
        Ok(()) => write_held(&left.held, column, others, room),
        Err(refused) => write_refused(refused, room),
    }
}
