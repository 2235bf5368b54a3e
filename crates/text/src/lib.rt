// Plan text: its reader, and decimal numbers as bytes (document 01, "Plan text and the listing").
#![tactic(auto)]

ghost use Rattle.std.specs.Prelude.{◌≡◌};
ghost use Rattle.rules.specs.Plan.{plan};
ghost use Rattle.rules.specs.Refusals.{refusal_in};
ghost use Rattle.text.specs.Text.{plan_of};
ghost use Rattle.text.specs.Reader.{plan_answer, read_answer, filled};

use exact::lent::copy;
use reading::read_lines;
use rules::Refusal;
use rules::sizes::LONGEST_TEXT;

mod reading;
pub mod routines;

// A number and the byte after it take two bytes of the text or more.
const MOST_NUMBERS: usize = 16_384;

// What was read: the numbers of columns and of runs.
#[derive(Clone, Copy, Debug, PartialEq, Eq)]
pub struct Sizes {
    pub columns: usize,
    pub runs: usize,
}

// The levels and table that were read go to the rooms, unless they are refused or a room is too small.
fn fill(
    levels: &[u8],
    table: &[u8],
    levelroom: &mut [u8],
    tableroom: &mut [u8],
) -> Result<Sizes, Refusal>
    ensures answer { result ≡ plan_answer (plan levels.now table.now) levelroom.old tableroom.old }
    ensures levels { levelroom.new ≡ filled (refusal_in result) levels.now levelroom.old }
    ensures table { tableroom.new ≡ filled (refusal_in result) table.now tableroom.old }
{
    plan::check(levels, table)?;
    if levelroom.len() < levels.len() || tableroom.len() < table.len() {
        return Err(Refusal::plain(7));
    }
    copy(levels, levelroom);
    copy(table, tableroom);
    Ok(Sizes {
        columns: levels.len(),
        runs: table.len() / levels.len(),
    })
}

// Reads plan text to the lent rooms: refusals 13, 14, 1 to 5 and 7.
pub fn read(text: &[u8], levels: &mut [u8], table: &mut [u8]) -> Result<Sizes, Refusal>
    ensures answer { result ≡ read_answer text.now levels.old table.old }
    ensures levels { levels.new ≡ filled (refusal_in result) (plan_of text.now).levels levels.old }
    ensures table { table.new ≡ filled (refusal_in result) (plan_of text.now).table table.old }
{
    if LONGEST_TEXT < text.len() {
        return Err(Refusal::plain(13));
    }
    let mut numbers = [0u8; MOST_NUMBERS];
    let lines = read_lines(text, &mut numbers)?;
    let (first, later) = numbers[..lines.count].split_at(lines.columns);
    fill(first, later, levels, table)
}
