// The text of the runs that stand, to be passed to another bench (request #101).
#![tactic(auto)]

ghost use Rattle.std.specs.Prelude.{◌≡◌, ◌≤◌, length, IfOk};
ghost use Rattle.held.specs.Held.{IsHeld};
ghost use Rattle.rules.specs.Refusals.{refusal_in};
ghost use Rattle.text.specs.Reader.{filled};
ghost use Rattle.standing_text.specs.StandingText.{text_in, held_text, numbers_after, rewrite_answer, rewritten, runs_left};

use held::{Answered, Held};
use routines::{read_left, text_of};
use rules::Refusal;

pub mod routines;

// The numbers of bytes and of runs put into the rooms.
#[derive(Clone, Copy, Debug, PartialEq, Eq)]
pub struct Text {
    pub bytes: usize,
    pub runs: usize,
}

// The text of the standing runs to one room, their original numbers to the other: refusals 10 and 7.
#[tactic(auto, unfolding(crate::specs::StandingText::held_text))]
pub fn write(held: Held, room: &mut [u8], numbers: &mut [usize]) -> Answered<Text>
    requires { IsHeld held }
    ensures answer { result ≡ held_text held (length room.old) (length numbers.old) }
    ensures room { room.new ≡ filled (refusal_in result.answer) (text_in held) room.old }
    ensures numbers { numbers.new ≡ numbers_after held (refusal_in result.answer) numbers.old }
{
    let answer = text_of(&held, room, numbers);
    Answered { held, answer }
}

// Plan text in, the text without the lost runs out, and the original numbers of those left: refusals 13, 14, 1 to 5, then those of the
// first strike that is refused, then 7.
pub fn rewrite(
    text: &[u8],
    lost: &[usize],
    room: &mut [u8],
    numbers: &mut [usize],
) -> Result<Text, Refusal>
    ensures answer { result ≡ rewrite_answer text.now lost.now (length room.old) (length numbers.old) }
    ensures room { room.new ≡ filled (refusal_in result) (rewritten text.now lost.now) room.old }
    ensures numbers { numbers.new ≡ filled (refusal_in result) (runs_left text.now lost.now) numbers.old }
    ensures within { IfOk result (λ text. (text.bytes ≤ length room.new) × (text.runs ≤ length numbers.new)) }
{
    let left = read_left(text, lost);
    left.answer?;
    text_of(&left.held, room, numbers)
}
