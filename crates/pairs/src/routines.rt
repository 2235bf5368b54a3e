// For our own crates: what a pair of runs adds to the words, by word length.
ghost use Rattle.std.specs.Prelude.{◌≡◌, [], ◌∷◌, ◌+◌, ◌≤◌, ◌<◌, ◌^◌, nat_abs, drop};
ghost use Rattle.rules.specs.Plan.{plan, runs, every_run, highest_level};
ghost use Rattle.plan.specs.Good.{Good, Sound};
ghost use Rattle.pairs.specs.Words.{score};
ghost use Rattle.pairs.specs.Given.{Row, Part, OfColumns, Gains, gained, with_column, added, once_list};
ghost use Rattle.pairs.specs.Lists.{pair_list, row_list, diagonal_list};

use exact::signed;

// The score of a column: its level less one where two entries agree, and -1 where they differ.
pub fn score(level: u8, a: u8, b: u8) -> i64
    ensures { result ≡ score level a b }
{
    if a == b {
        signed::sub(signed::of_byte(level), 1)
    } else {
        -1
    }
}

// A sum gains the score times the sum of one length less.
fn gain(sums: &mut [i64; 25], score: i64, k: usize)
    requires { Gains score k sums.old }
    ensures { sums.new ≡ gained score k sums.old }
{
    sums[k + 1] = signed::add(sums[k + 1], signed::mul(score, sums[k]));
}

// One column more. `columns` are in the sums so far, so that the sums of greater lengths are zero and stay so.
// Two lengths a turn: of one a turn the compiler makes vectors of two products of 64 bits, which x86-64 has no instruction for, and is slower.
fn extend(sums: &mut [i64; 25], score: i64, columns: usize)
    requires { OfColumns columns sums.old × (nat_abs score ≤ highest_level) }
    ensures { sums.new ≡ with_column score sums.old }
{
    let mut j = columns + 1;
    while 2 <= j {
        gain(sums, score, j - 1);
        gain(sums, score, j - 2);
        j -= 2;
    }
    if j == 1 {
        gain(sums, score, 0);
    }
}

// The sums of a pair go into a total. They may end at the plan's number of columns, since those of greater lengths are zero.
pub fn add_to(total: &mut [i64; 24], more: &[i64])
    requires { Row (2 ^ 61) total.old × Part (2 ^ 61) more.now }
    ensures { total.new ≡ added total.old more.now }
{
    for (j, sum) in more.iter().enumerate() {
        total[j] = signed::add(total[j], *sum);
    }
}

// What a pair of runs adds to the words: the sums over all sets of columns, from length 0 on, a column at a time.
pub fn pair(levels: &[u8], table: &[u8], f: usize, g: usize) -> [i64; 25]
    requires { Sound (plan levels.now table.now) (f ∷ []) × Sound (plan levels.now table.now) (g ∷ []) }
    ensures { result ≡ pair_list (plan levels.now table.now) f g }
{
    let m = levels.len();
    let mut sums = [0i64; 25];
    sums[0] = 1;
    for (i, level) in levels.iter().enumerate() {
        let x = score(*level, table[f * m + i], table[g * m + i]);
        extend(&mut sums, x, i);
    }
    sums
}

// The row sums of run f over the runs given, of which f need not be one.
pub fn row(levels: &[u8], table: &[u8], runs: &[usize], f: usize) -> [i64; 24]
    requires { Sound (plan levels.now table.now) runs.now × Sound (plan levels.now table.now) (f ∷ []) }
    ensures { result ≡ row_list (plan levels.now table.now) runs.now f }
{
    let mut total = [0i64; 24];
    for g in runs {
        let sums = pair(levels, table, f, *g);
        add_to(&mut total, &sums[1..]);
    }
    total
}

// What the pairs of run f with the later runs add to the words goes into the total.
fn add_later(total: &mut [i64; 24], levels: &[u8], table: &[u8], f: usize)
    requires { Row (2 ^ 60) total.old × (Good (plan levels.now table.now) × (f < runs (plan levels.now table.now))) }
    ensures { let p = plan levels.now table.now in
        total.new ≡ added total.old (row_list p (drop (f + 1) (every_run p)) f) }
{
    let n = table.len() / levels.len();
    for g in f + 1..n {
        let sums = pair(levels, table, f, g);
        add_to(total, &sums[1..]);
    }
}

// What each pair of different runs of an accepted plan adds to the words, once.
pub fn once(levels: &[u8], table: &[u8]) -> [i64; 24]
    requires { Good (plan levels.now table.now) }
    ensures { let p = plan levels.now table.now in result ≡ once_list p (every_run p) }
{
    let mut total = [0i64; 24];
    for f in (0..table.len() / levels.len()).rev() {
        add_later(&mut total, levels, table, f);
    }
    total
}

// E_j, for each length j: what a pair of a run with itself adds, since there every column agrees.
pub fn diagonal(levels: &[u8]) -> [i64; 24]
    requires { Sound (plan levels.now []) [] }
    ensures { result ≡ diagonal_list (plan levels.now []) }
{
    let mut sums = [0i64; 25];
    sums[0] = 1;
    for (i, level) in levels.iter().enumerate() {
        extend(&mut sums, score(*level, 0, 0), i);
    }
    let mut longer = [0i64; 24];
    add_to(&mut longer, &sums[1..]);
    longer
}
