// The walk over the pairs of runs in one cell, which joins the levels of a column into groups.
ghost use Rattle.std.specs.Prelude.{◌≡◌, [], ◌∷◌, map, suc, ◌+◌, ◌<◌, length, get_or, drop};
ghost use Rattle.exact.specs.Lists.{alike};
ghost use Rattle.rules.specs.Plan.{plan, level, entry};
ghost use Rattle.plan.specs.Good.{Sound};
ghost use Rattle.tell.specs.Evidence.{group_of, renamed, agree, most_groups, evidence};
ghost use Rattle.tell.specs.Given.{Inside, Asked, Kept, Unjoined, after_pair, joins_groups, after_run};

use crate::Joins;

// Whether the runs f and g are in one cell: they have the same entries in the columns.
pub(crate) fn agree(levels: &[u8], table: &[u8], f: usize, g: usize, columns: &[usize]) -> bool
    requires { Sound (plan levels.now table.now) (f ∷ g ∷ []) × Inside (length levels.now) columns.now }
    ensures { result ≡ agree (entry (plan levels.now table.now)) columns.now f g }
{
    let m = levels.len();
    let a = f * m;
    let b = g * m;
    for i in columns {
        if table[a + *i] != table[b + *i] {
            return false;
        }
    }
    true
}

// The entry of run f in the column.
pub(crate) fn level_of(levels: &[u8], table: &[u8], f: usize, column: usize) -> u8
    requires { Asked (plan levels.now table.now) (f ∷ []) column [] }
    ensures is { result ≡ entry (plan levels.now table.now) f column }
    ensures low { result < most_groups }
{
    let place = f * levels.len() + column;
    table[place]
}

// The name of group k where p and q become one group: the lower name for both.
fn renamed(p: u8, q: u8, k: u8) -> u8
    ensures { result ≡ renamed p q k }
{
    if p < q {
        if k == q {
            return p;
        }
        return k;
    }
    if k == p {
        return q;
    }
    k
}

// The groups where p and q are one.
fn joined(groups: [u8; 16], p: u8, q: u8) -> [u8; 16]
    ensures { result ≡ map (renamed p q) groups }
{
    let mut names = groups;
    for name in &mut names {
        *name = renamed(p, q, *name);
    }
    names
}

// After the runs f and g, which are in one cell, with levels x and y: one more link, where the two are in different groups.
fn met(joins: Joins, f: usize, g: usize, x: usize, y: usize) -> Joins
    requires { Kept joins × ((x < most_groups) × (y < most_groups)) }
    ensures { result ≡ after_pair joins f g x y }
{
    let groups = joins.groups;
    let p = groups[x];
    let q = groups[y];
    if p == q {
        return joins;
    }
    let names = joined(groups, p, q);
    let many = joins.many;
    let mut left = joins.left;
    let mut right = joins.right;
    left[many] = f;
    right[many] = g;
    Joins {
        groups: names,
        left,
        right,
        many: many + 1,
    }
}

// Whether the runs f, with level x, and g are in one cell and have levels of different groups. Levels of one group need no look at the cells.
fn joins_groups(
    levels: &[u8],
    table: &[u8],
    f: usize,
    x: usize,
    g: usize,
    column: usize,
    others: &[usize],
    groups: [u8; 16],
) -> bool
    requires asked { Asked (plan levels.now table.now) (f ∷ g ∷ []) column others.now }
    requires x_value { x ≡ entry (plan levels.now table.now) f column }
    ensures { result ≡ joins_groups (plan levels.now table.now) column others.now groups f g }
{
    let y = usize::from(level_of(levels, table, g, column));
    if groups[x] == groups[y] {
        return false;
    }
    agree(levels, table, f, g, others)
}

// After the run at place `at` met each later run of its cell. With `last` links all levels of the column are joined: it ends there.
fn met_later(
    levels: &[u8],
    table: &[u8],
    runs: &[usize],
    at: usize,
    column: usize,
    others: &[usize],
    last: usize,
    joins: Joins,
) -> Joins
    requires asked { Asked (plan levels.now table.now) runs.now column others.now × (at < length runs.now) }
    requires last_value { suc last ≡ level (plan levels.now table.now) column }
    requires kept { Kept joins × Unjoined (level (plan levels.now table.now) column) joins }
    ensures { let p = plan levels.now table.now in
        result ≡ after_run p column others.now (get_or runs.now at 0) (drop (at + 1) runs.now) joins }
{
    let f = runs[at];
    let x = usize::from(level_of(levels, table, f, column));
    let mut state = joins;
    for k in at + 1..runs.len() {
        if state.many == last {
            return state;
        }
        let g = runs[k];
        let groups = state.groups;
        if joins_groups(levels, table, f, x, g, column, others, groups) {
            let y = usize::from(level_of(levels, table, g, column));
            let after = met(state, f, g, x, y);
            state = after;
        }
    }
    state
}

// The groups of the column against the others, with the pairs of runs that made them. It ends where all levels of the column are joined.
pub(crate) fn evidence(
    levels: &[u8],
    table: &[u8],
    runs: &[usize],
    column: usize,
    others: &[usize],
) -> Joins
    requires { Asked (plan levels.now table.now) runs.now column others.now }
    ensures { let p = plan levels.now table.now in
        result ≡ evidence p runs.now column others.now }
{
    let last = usize::from(levels[column]) - 1;
    let groups: [u8; 16] = [0, 1, 2, 3, 4, 5, 6, 7, 8, 9, 10, 11, 12, 13, 14, 15];
    let left = [0usize; 16];
    let right = [0usize; 16];
    let mut state = Joins {
        groups,
        left,
        right,
        many: 0,
    };
    for k in 0..runs.len() {
        if state.many == last {
            return state;
        }
        let after = met_later(levels, table, runs, k, column, others, last, state);
        state = after;
    }
    state
}

// Whether the levels that the runs have in the column are all in one group.
pub(crate) fn in_one_group(
    levels: &[u8],
    table: &[u8],
    runs: &[usize],
    column: usize,
    groups: [u8; 16],
) -> bool
    requires { Asked (plan levels.now table.now) runs.now column [] }
    ensures { let p = plan levels.now table.now in
        result ≡ alike (map (λ f. group_of groups (entry p f column)) runs.now) }
{
    if runs.len() == 0 {
        return true;
    }
    let first = usize::from(level_of(levels, table, runs[0], column));
    for k in 1..runs.len() {
        let level = usize::from(level_of(levels, table, runs[k], column));
        if groups[level] != groups[first] {
            return false;
        }
    }
    true
}
