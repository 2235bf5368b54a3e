// Reads plan text and writes the same plan's text, without the runs that the arguments name. Standard error then has the line of each
// run lost and the original numbers of the runs left.
#![tactic(auto)]

ghost use Rattle.std.specs.Prelude.{◌≡◌, ◌≤◌, length, IfOk};
ghost use Rattle.console.specs.Counts.{IsPrefixLen};
ghost use Rattle.rules.specs.Plan.{most_runs};
ghost use Rattle.writer.specs.Writer.{most_of_text};
ghost use Rattle.standing_text.specs.StandingText.{rewrite_answer};

use console::arguments::{argument_count, numbers_at};
use console::lines::{line_after, lines_end};
use console::{say, say_number};
use rules::Refusal;
use rules::sizes::MOST_RUNS;
use standing_text::Text;
use std::io::Write;
use std::rt::Env;
use writer::MOST_BYTES;

fn show_refusal<O: Write, E: Write>(output: &mut O, errors: &mut E, refused: Refusal, text: &[u8]) {
    let mut line = [0u8; 71];
    let size = lines::refusal_line(refused, &mut line);
    console::refuse(output, errors, &line[..size], text, refused);
}

// The line of a run ends with byte 10, as every line of an accepted text, and so ends what is said.
fn say_run<E: Write>(errors: &mut E, run: usize, lines: &[u8]) {
    say(errors, b"lost");
    say_number(errors, run);
    say(errors, b" ");
    say(errors, line_after(lines, run));
}

fn say_lost<E: Write>(errors: &mut E, runs: &[usize], text: &[u8]) {
    let levels = lines_end(text, 1);
    let lines = &text[levels..];
    for run in runs {
        say_run(errors, *run, lines);
    }
}

fn say_left<E: Write>(errors: &mut E, runs: &[usize]) {
    say(errors, b"runs");
    for run in runs {
        say_number(errors, *run);
    }
    say(errors, b"\n");
}

// The runs named by the arguments, into a room for as many as a plan has runs, and how many they are.
fn lost_runs<A: Env>(env: &A, runs: &mut [usize]) -> usize
    requires { most_runs ≤ length runs.old }
    ensures { IsPrefixLen result runs.new }
{
    numbers_at(env, 1, argument_count(env), runs)
}

// The text without the lost runs, in rooms for the longest text and for all runs of a plan.
fn rewritten(
    text: &[u8],
    lost: &[usize],
    room: &mut [u8],
    numbers: &mut [usize],
) -> Result<Text, Refusal>
    requires { (most_of_text ≤ length room.old) × (most_runs ≤ length numbers.old) }
    ensures answer { result ≡ rewrite_answer text.now lost.now (length room.old) (length numbers.old) }
    ensures within { IfOk result (λ text. (text.bytes ≤ length room.new) × (text.runs ≤ length numbers.new)) }
{
    standing_text::rewrite(text, lost, room, numbers)
}

// A plan has at most 256 runs, so that more arguments than that are refused by then.
fn main(rt: HostRuntime) {
    let mut output = rt.stdout();
    let mut errors = rt.stderr();
    let mut lost = [0usize; MOST_RUNS];
    let losses = lost_runs(&rt, &mut lost);
    let mut text = console::text_room();
    let read = console::read_text(&mut rt.stdin(), &mut text);
    if let Some(error) = read.failed {
        console::not_read(&mut errors, &error);
        return;
    }
    let text = &text[..read.size];
    let lost = &lost[..losses];
    let mut room = [0u8; MOST_BYTES];
    let mut numbers = [0usize; MOST_RUNS];
    match rewritten(text, lost, &mut room, &mut numbers) {
        Ok(left) => {
            let written = console::write(&mut output, &mut errors, &room[..left.bytes]);
            if written && !lost.is_empty() {
                say_lost(&mut errors, lost, text);
                say_left(&mut errors, &numbers[..left.runs]);
            }
        }
        Err(refused) => show_refusal(&mut output, &mut errors, refused, text),
    }
}
