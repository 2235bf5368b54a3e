// What a C program links: functions on slices of bytes and of run numbers, and on numbers (include/crumbchorus.h).
#![tactic(auto)]

ghost use Rattle.std.specs.Prelude.{◌≡◌, ◌≤◌, ◌<◌, ◌^◌, length, IfOk};
ghost use Rattle.rules.specs.Plan.{plan, every_run};
ghost use Rattle.rules.specs.Refusals.{of_plan, refusal_in, number_or, largest_number};
ghost use Rattle.words.specs.Answers.{planner_word};
ghost use Rattle.text.specs.Reader.{filled};
ghost use Rattle.writer.specs.Writer.{write_text, write_answer};
ghost use Rattle.standing_text.specs.StandingText.{rewrite_answer, rewritten, runs_left};
ghost use Rattle.listing_lines.specs.Listing.{planner_listing, listing_room};
ghost use Rattle.tell_marked.specs.TellMarked.{tell_number, tell_room};
ghost use Rattle.projection_tables.specs.Tables.{rooms};
ghost use Rattle.text.specs.Bytes.{sized};
ghost use Rattle.planner.specs.Exports.{version, bytes_in, table_number, table_filled};

use exact::signed;
use rules::Refusal;

// What a C program gets: how many bytes or lines there are, or the refusal's number negated.
fn size_or(answer: Result<usize, Refusal>) -> i64
    requires few { IfOk answer (λ size. size < 2 ^ 63) }
    requires known { (refusal_in answer).number ≤ largest_number }
    ensures { result ≡ number_or (sized answer) }
{
    match answer {
        Ok(size) => signed::of_size(size),
        Err(refused) => Refusal::number_or(Err(refused)),
    }
}

// The version of this library, as the header writes it.
pub fn crumb_version() -> u64
    ensures { result ≡ version }
{
    1100
}

// The scaled word of one length, or the refusal number negated.
pub fn crumb_word(levels: &[u8], table: &[u8], length: u64) -> i64
    ensures { result ≡ planner_word (plan levels.now table.now) length }
{
    Refusal::number_or(words::word(levels, table, length as usize))
}

// The listing of a plan text, or the line of what refuses it, into the lent room: the number of bytes, or -7 where the room is too small.
pub fn crumb_listing(text: &[u8], room: &mut [u8]) -> i64
    ensures answer { result ≡ planner_listing text.now room.old }
    ensures room { room.new ≡ listing_room text.now room.old }
{
    size_or(listing_lines::listing(text, room))
}

// The text of a plan into the lent room: the number of bytes, or the refusal number negated.
pub fn crumb_write(levels: &[u8], table: &[u8], room: &mut [u8]) -> i64
    ensures answer { let p = plan levels.now table.now in
        let a = write_answer p (every_run p) (of_plan p) (length room.old) in
        result ≡ number_or (sized a) }
    ensures room { let p = plan levels.now table.now in
        let a = write_answer p (every_run p) (of_plan p) (length room.old) in
        room.new ≡ filled (refusal_in a) (write_text p) room.old }
{
    size_or(writer::write(levels, table, room))
}

// Whether the runs that stand can tell the column from the others acting together: the lines of the answer into the lent room. The number
// of bytes, or the refusal number negated.
pub fn crumb_tell(
    levels: &[u8],
    table: &[u8],
    standing: &[u8],
    column: u64,
    others: &[usize],
    room: &mut [u8],
) -> i64
    ensures answer { let p = plan levels.now table.now in
        result ≡ tell_number p standing.now column others.now room.old }
    ensures room { let p = plan levels.now table.now in
        room.new ≡ tell_room p standing.now column others.now room.old }
{
    size_or(tell_marked::tell_marked(levels, table, standing, column as usize, others, room))
}

// The table for size f of the runs that stand: its lines into three lent rooms, for numerators, denominators and counts. The number of
// lines, or the refusal number negated.
pub fn crumb_table(
    levels: &[u8],
    table: &[u8],
    standing: &[u8],
    size: u64,
    relative: u64,
    nums: &mut [u64],
    dens: &mut [u64],
    counts: &mut [u64],
) -> i64
    ensures answer { let p = plan levels.now table.now in
        let R = rooms nums.old dens.old counts.old in
        result ≡ table_number p standing.now relative size R }
    ensures rooms { let p = plan levels.now table.now in
        let R = rooms nums.old dens.old counts.old in
        rooms nums.new dens.new counts.new ≡ table_filled p standing.now relative size R }
{
    size_or(table_marked::table_marked(
        levels,
        table,
        standing,
        size as usize,
        relative != 0,
        nums,
        dens,
        counts,
    ))
}

// The text of a plan without its lost runs, and the original numbers of the runs left, each into its lent room: the number of bytes,
// or the refusal number negated.
pub fn crumb_rewrite(text: &[u8], lost: &[usize], room: &mut [u8], numbers: &mut [usize]) -> i64
    ensures answer { let a = rewrite_answer text.now lost.now (length room.old) (length numbers.old) in
        result ≡ number_or (sized (bytes_in a)) }
    ensures room { let a = rewrite_answer text.now lost.now (length room.old) (length numbers.old) in
        room.new ≡ filled (refusal_in a) (rewritten text.now lost.now) room.old }
    ensures numbers { let a = rewrite_answer text.now lost.now (length room.old) (length numbers.old) in
        numbers.new ≡ filled (refusal_in a) (runs_left text.now lost.now) numbers.old }
{
    size_or(standing_text::rewrite(text, lost, room, numbers).map(|left| left.bytes))
}
