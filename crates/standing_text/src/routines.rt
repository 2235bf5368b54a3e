// The parts of the two calls: what is left of a text, the strikes, the text with its numbers.
ghost use Rattle.std.specs.Prelude.{◌≡◌, length};
ghost use Rattle.held.specs.Held.{IsHeld};
ghost use Rattle.rules.specs.Refusals.{refusal_in};
ghost use Rattle.text.specs.Reader.{filled};
ghost use Rattle.standing_text.specs.StandingText.{text_in, text_answer, numbers_after, strikes_answer, read_left};

use crate::Text;
use exact::lent::copy;
use held::routines::standing_runs;
use held::{Answered, Held};
use rules::Refusal;
use rules::sizes::{MOST_COLUMNS, MOST_ENTRIES};

// The text of the standing runs to one room and their numbers to the other, where both fit.
pub(crate) fn text_of(held: &Held, room: &mut [u8], numbers: &mut [usize]) -> Result<Text, Refusal>
    requires { IsHeld held.now }
    ensures answer { result ≡ text_answer held.now (length room.old) (length numbers.old) }
    ensures room { room.new ≡ filled (refusal_in result) (text_in held.now) room.old }
    ensures numbers { numbers.new ≡ numbers_after held.now (refusal_in result) numbers.old }
{
    let standing = standing_runs(held)?;
    let runs = standing.len();
    if numbers.len() < runs {
        return Err(Refusal::plain(7));
    }
    let originals = standing.as_slice();
    let bytes = writer::routines::write_runs(held.levels(), held.table(), originals, room)?;
    copy(originals, numbers);
    Ok(Text { bytes, runs })
}

// The lost runs are struck one after the other, until a strike is refused.
pub fn struck(held: Held, lost: &[usize]) -> Answered<()>
    requires { IsHeld held }
    ensures { result ≡ strikes_answer held lost.now }
{
    let mut left = held;
    for run in lost {
        let next = held::calls::strike(left, *run);
        if next.answer.is_err() {
            return next;
        }
        left = next.held;
    }
    Answered {
        held: left,
        answer: Ok(()),
    }
}

// The plan of a text without the lost runs: refusals 13, 14, 1 to 5, then those of the first strike that is refused. A text that is not
// read leaves the empty plan.
pub fn read_left(text: &[u8], lost: &[usize]) -> Answered<()>
    ensures { result ≡ read_left text.now lost.now }
{
    let mut levels = [0u8; MOST_COLUMNS];
    let mut table = [0u8; MOST_ENTRIES];
    match text::read(text, &mut levels, &mut table) {
        Ok(read) => {
            let entries = read.columns * read.runs;
            let opened = held::calls::open(&levels[..read.columns], &table[..entries]);
            struck(opened.held, lost)
        }
        Err(refused) => {
            let nothing = held::calls::open(&[], &[]);
            Answered {
                held: nothing.held,
                answer: Err(refused),
            }
        }
    }
}
