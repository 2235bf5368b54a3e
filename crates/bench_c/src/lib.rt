// For the benchmark and the tests: the calls of `bench` as C functions (bench/exports.h), each with the same contract.
#![tactic(auto)]

ghost use Rattle.std.specs.Prelude.{◌≡◌, length};
ghost use Rattle.rules.specs.Plan.{plan, columns, every_run};
ghost use Rattle.rules.specs.Refusals.{of_plan};
ghost use Rattle.projection_tables.specs.Tables.{rooms, table_rooms};
ghost use Rattle.bench.specs.Exports.{strikes_number, table_number, ratio_number, set_word_number, set_words_number};

// A plan is opened, goes through the rounds, and loses run 0: the word of one length of the runs that are left.
#[unsafe(no_mangle)]
pub extern "C" fn bench_strikes(levels: &[u8], table: &[u8], length: u64, times: u64) -> i64
    ensures { result ≡ strikes_number (plan levels.now table.now) length times }
{
    bench::bench_strikes(levels, table, length, times)
}

// The table for size f, put into the lent rooms: the number of its lines.
#[unsafe(no_mangle)]
pub extern "C" fn bench_table(
    levels: &[u8],
    table: &[u8],
    f: u64,
    relative: bool,
    nums: &mut [u64],
    dens: &mut [u64],
    counts: &mut [u64],
) -> i64
    ensures answer { let p = plan levels.now table.now in
        let R = rooms nums.old dens.old counts.old in
        result ≡ table_number relative p f R }
    ensures rooms { let p = plan levels.now table.now in
        let R = rooms nums.old dens.old counts.old in
        rooms nums.new dens.new counts.new ≡
        table_rooms p (every_run p) (of_plan p) relative f R }
{
    bench::bench_table(levels, table, f, relative, nums, dens, counts)
}

// Generalized resolution in thousandths.
#[unsafe(no_mangle)]
pub extern "C" fn bench_ratio(levels: &[u8], table: &[u8]) -> i64
    ensures { result ≡ ratio_number (plan levels.now table.now) }
{
    bench::bench_ratio(levels, table)
}

// W(I) of a set of f columns, by the engine that is named.
#[unsafe(no_mangle)]
pub extern "C" fn bench_set_word(
    levels: &[u8],
    table: &[u8],
    f: u64,
    columns: &[usize],
    by_pairs: bool,
) -> i64
    ensures { result ≡ set_word_number (plan levels.now table.now) f columns.now }
{
    bench::bench_set_word(levels, table, f, columns, by_pairs)
}

// W(I) of every set of f columns, by the engine that is named, added up.
#[unsafe(no_mangle)]
pub extern "C" fn bench_set_words(levels: &[u8], table: &[u8], f: u64, by_pairs: bool) -> i64
    ensures { result ≡ set_words_number (plan levels.now table.now) f }
{
    bench::bench_set_words(levels, table, f, by_pairs)
}
