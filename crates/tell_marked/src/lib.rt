// The assessor's question of a C program: a plan, a mark for each run, a column and others; its lines go into a lent room.
#![tactic(auto)]

ghost use Rattle.std.specs.Prelude.{◌≡◌, ◌≤◌, length, IfOk};
ghost use Rattle.rules.specs.Plan.{plan};
ghost use Rattle.tell_marked.specs.TellMarked.{marked_written, tell_room};

use exact::lent::copy;
use marked::marked_runs;
use rules::Refusal;
use tell_lines::routines::write_tell;

// No answer is longer.
pub const MOST_BYTES: usize = 144_000;

// The lines, where nothing is refused: the number of their bytes. A refusal leaves the room as it was.
pub fn tell_marked(
    levels: &[u8],
    table: &[u8],
    marks: &[u8],
    column: usize,
    others: &[usize],
    room: &mut [u8],
) -> Result<usize, Refusal>
    ensures answer { let p = plan levels.now table.now in
        result ≡ marked_written p marks.now column others.now room.old }
    ensures room { let p = plan levels.now table.now in
        room.new ≡ tell_room p marks.now column others.now room.old }
    ensures within { IfOk result (λ bytes. bytes ≤ length room.new) }
{
    let runs = marked_runs(levels, table, marks)?;
    let mut made = [0u8; MOST_BYTES];
    let written = write_tell(levels, table, runs.as_slice(), column, others, &mut made);
    written.answer?;
    let bytes = written.bytes;
    let places = room.len();
    if places < bytes {
        return Err(Refusal::plain(7));
    }
    copy(&made[..bytes], room);
    Ok(bytes)
}
