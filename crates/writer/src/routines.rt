// What the crates above call on sound runs, and its parts.
ghost use Rattle.std.specs.Prelude.{◌≡◌, ◌+◌, ◌*◌, ◌≤◌, length};
ghost use Rattle.rules.specs.Plan.{plan};
ghost use Rattle.rules.specs.Refusals.{refusal_in};
ghost use Rattle.text.specs.Bytes.{Put};
ghost use Rattle.text.specs.Reader.{filled};
ghost use Rattle.writer.specs.Writer.{text_of, write_answer, Short, ended_line, most_of_text, Runs};

use crate::MOST_BYTES;
use exact::lent::copy;
use rules::Refusal;
use text::routines::write_number;

const COMMA: u8 = 44;

const LINE_FEED: u8 = 10;

// The numbers with single commas between, and the end of the line: three bytes a number at most. Answers the place behind it.
fn write_line(numbers: &[u8], room: &mut [u8], at: usize) -> usize
    requires { Short numbers.now × (at + 3 * length numbers.now ≤ length room.old) }
    ensures { let xs = numbers.now in Put (ended_line xs) (3 * length xs) at room.old result room.new }
{
    let mut end = write_number(u64::from(numbers[0]), room, at);
    for number in &numbers[1..] {
        room[end] = COMMA;
        end = write_number(u64::from(*number), room, end + 1);
    }
    room[end] = LINE_FEED;
    end + 1
}

// The levels, then each run. Answers the place behind them.
fn write_lines(levels: &[u8], table: &[u8], runs: &[usize], room: &mut [u8]) -> usize
    requires { Runs (plan levels.now table.now) runs.now × (most_of_text ≤ length room.old) }
    ensures { Put (text_of (plan levels.now table.now) runs.now) most_of_text 0 room.old result room.new }
{
    let m = levels.len();
    let mut end = write_line(levels, room, 0);
    for run in runs {
        let first = *run * m;
        end = write_line(&table[first..first + m], room, end);
    }
    end
}

// The text of some runs goes to the lent room where it fits. Answers the number of its bytes.
pub fn write_runs(
    levels: &[u8],
    table: &[u8],
    runs: &[usize],
    room: &mut [u8],
) -> Result<usize, Refusal>
    requires { Runs (plan levels.now table.now) runs.now }
    ensures answer { result ≡ write_answer (plan levels.now table.now) runs.now (λ checks. checks) (length room.old) }
    ensures room { room.new ≡ filled (refusal_in result) (text_of (plan levels.now table.now) runs.now) room.old }
{
    let mut text = [0u8; MOST_BYTES];
    let bytes = write_lines(levels, table, runs, &mut text);
    if room.len() < bytes {
        return Err(Refusal::plain(7));
    }
    copy(&text[..bytes], room);
    Ok(bytes)
}
