// For our own crates: the lines of the listing, put into a room one after the other. Each answers the place behind its bytes.
ghost use Rattle.std.specs.Prelude.{◌≡◌, ◌+◌, ◌*◌, ◌≤◌, length};
ghost use Rattle.rules.specs.Plan.{plan, every_run};
ghost use Rattle.plan.specs.Good.{Good};
ghost use Rattle.resolution.specs.Resolution.{generalized_answer};
ghost use Rattle.text.specs.Bytes.{Put};
ghost use Rattle.listing_lines.specs.Listing.{
  count_lines,
  advice_line,
  plan_listing,
  listing,
};
ghost use Rattle.listing_lines.specs.Parts.{
  most_bytes,
  Shown,
  word_lines_of,
  lines_of_rating,
  Every,
  Worded,
};

use exact::fractions::reduced;
use exact::listed::Numbers;
use exact::signed;
use lines::{write_line, write_refusal};
use resolution::GeneralizedResolution;
use resolution::answers::generalized_of;
use resolution::routines::rate_answer;
use rules::Refusal;
use rules::sizes::{MOST_COLUMNS, MOST_ENTRIES, MOST_RUNS};

// A line for each length, the words over the number of pairs, reduced.
fn write_words(words: &[i64; 24], m: usize, pairs: u64, room: &mut [u8], at: usize) -> usize
    requires { Shown words.now m pairs × (at + 68 * m ≤ length room.old) }
    ensures { Put (word_lines_of words.now pairs m) (68 * m) at room.old result room.new }
{
    let mut end = at;
    for (k, word) in words[..m].iter().enumerate() {
        let word = reduced(signed::to_u64(*word), pairs);
        let numbers = [k as u64 + 1, word.num, word.den];
        end = write_line(b"word", &numbers, room, end);
    }
    end
}

fn write_resolution(
    rating: Result<GeneralizedResolution, Refusal>,
    room: &mut [u8],
    at: usize,
) -> usize
    requires { at + 104 ≤ length room.old }
    ensures { Put (lines_of_rating rating) 104 at room.old result room.new }
{
    let Ok(rating) = rating else {
        return write_line(b"resolution none", &[], room, at);
    };
    let ratio = rating.ratio;
    let size = [rating.resolution as u64];
    let fraction = [ratio.num, ratio.den];
    let thousandths = [rating.thousandths];
    let above = write_line(b"resolution", &size, room, at);
    let between = write_line(b"ratio", &fraction, room, above);
    write_line(b"gr", &thousandths, room, between)
}

fn write_advice(levels: &[u8], table: &[u8], runs: &[usize], room: &mut [u8], at: usize) -> usize
    requires { Every (plan levels.now table.now) runs.now × (at + 26 ≤ length room.old) }
    ensures { Put (advice_line (plan levels.now table.now)) 26 at room.old result room.new }
{
    if runs.len() < 2 {
        return write_line(b"lose none", &[], room, at);
    }
    let run = [advice::routines::advice(levels, table, runs) as u64];
    write_line(b"lose", &run, room, at)
}

// The lines of the sizes, of the words, and of the strength.
fn write_counts(
    levels: &[u8],
    table: &[u8],
    runs: &[usize],
    words: &[i64; 24],
    room: &mut [u8],
) -> usize
    requires { Worded (plan levels.now table.now) runs.now words.now × (1709 ≤ length room.old) }
    ensures { Put (count_lines (plan levels.now table.now)) 1709 0 room.old result room.new }
{
    let m = levels.len();
    let n = runs.len() as u64;
    let sizes = [n, m as u64];
    let strength = [counts::routines::strength(levels, table, runs) as u64];
    let named = write_line(b"plan", &sizes, room, 0);
    let worded = write_words(words, m, n * n, room, named);
    write_line(b"strength", &strength, room, worded)
}

// R, the largest ratio and GR of every run; 11 where no word is above zero. Column 0 is one of every accepted plan.
fn rated(
    levels: &[u8],
    table: &[u8],
    runs: &[usize],
    words: &[i64; 24],
) -> Result<GeneralizedResolution, Refusal>
    requires { Worded (plan levels.now table.now) runs.now words.now }
    ensures { let p = plan levels.now table.now in result ≡ generalized_answer p (every_run p) (λ checks. checks) }
{
    let rating = rate_answer(levels, table, runs, words, 0)?;
    Ok(generalized_of(rating))
}

// The lines of an accepted plan.
fn write_plan(levels: &[u8], table: &[u8], room: &mut [u8]) -> usize
    requires { Good (plan levels.now table.now) × (most_bytes ≤ length room.old) }
    ensures { Put (plan_listing (plan levels.now table.now)) most_bytes 0 room.old result room.new }
{
    let words = words::routines::words_of_plan(levels, table);
    let every = Numbers::<MOST_RUNS>::first(table.len() / levels.len());
    let runs = every.as_slice();
    let rating = rated(levels, table, runs, &words);
    let counted = write_counts(levels, table, runs, &words, room);
    let resolved = write_resolution(rating, room, counted);
    write_advice(levels, table, runs, room, resolved)
}

// The whole listing. Rooms for 24 levels and for 256 runs of them hold every accepted plan.
pub fn write_listing(text: &[u8], room: &mut [u8]) -> usize
    requires { most_bytes ≤ length room.old }
    ensures { Put (listing text.now) most_bytes 0 room.old result room.new }
{
    let mut levels = [0u8; MOST_COLUMNS];
    let mut table = [0u8; MOST_ENTRIES];
    match text::read(text, &mut levels, &mut table) {
        Ok(read) => {
            let entries = read.columns * read.runs;
            write_plan(&levels[..read.columns], &table[..entries], room)
        }
        Err(refused) => write_refusal(refused, room),
    }
}
