// The writer of plan text (request #101).
#![tactic(auto)]

ghost use Rattle.std.specs.Prelude.{◌≡◌, length};
ghost use Rattle.rules.specs.Plan.{plan, every_run};
ghost use Rattle.rules.specs.Refusals.{of_plan, refusal_in};
ghost use Rattle.text.specs.Reader.{filled};
ghost use Rattle.writer.specs.Writer.{write_text, write_answer};

use rules::Refusal;

pub mod routines;

// No text of an accepted plan is longer: a line of levels and 256 runs, each of 24 numbers of two digits.
pub const MOST_BYTES: usize = 18_504;

// Writes a plan's text to the lent room, and answers the number of its bytes: refusals 1 to 5 and 7.
pub fn write(levels: &[u8], table: &[u8], room: &mut [u8]) -> Result<usize, Refusal>
    ensures answer { let p = plan levels.now table.now in result ≡ write_answer p (every_run p) (of_plan p) (length room.old) }
    ensures room { room.new ≡ filled (refusal_in result) (write_text (plan levels.now table.now)) room.old }
{
    let every = plan::routines::checked_runs(levels, table)?;
    routines::write_runs(levels, table, every.as_slice(), room)
}
