// For our own crates: what a column adds to the cell of two runs that agree in it, a digit for each level, the lowest level lowest.
ghost use Rattle.std.specs.Prelude.{◌≡◌, [], ◌+◌, ◌-◌, ◌*◌, ◌≤◌, ◌<◌, min, eqb, length, get_or};
ghost use Rattle.rules.specs.Plan.{plan, level, every_column};
ghost use Rattle.cells.specs.Cells.{bit, window, members, stride, stride_of, Strides};

// 1 where two numbers are the same, and 0 where they differ.
pub(crate) fn same(a: u8, b: u8) -> u16
    ensures { result ≡ bit (eqb a b) }
{
    u16::from(a == b)
}

// How many columns have the level.
fn members_of(levels: &[u8], s: u8) -> u16
    requires { length levels.now ≤ 24 }
    ensures { let p = plan levels.now [] in result ≡ members (level p) (every_column p) s }
{
    let mut k = 0;
    for level in levels {
        k += same(s, *level);
    }
    k
}

// The next stride.
fn next_stride(t: u16, members: u16) -> u16
    requires { (t ≤ window) × (members ≤ 24) }
    ensures { result ≡ min window (t * (members + 1)) }
{
    (t * (members + 1)).min(2560)
}

// The stride of the columns of a level.
fn stride_of(levels: &[u8], l: u8) -> u16
    requires { length levels.now ≤ 24 }
    ensures { let p = plan levels.now [] in result ≡ stride (level p) (every_column p) l }
{
    let mut t = 1;
    for s in 0..l {
        t = next_stride(t, members_of(levels, s));
    }
    t
}

// The stride of column i: that of the column before it where their levels are the same.
fn stride_at(strides: &[u16; 24], levels: &[u8], i: usize) -> u16
    requires { (length levels.now ≤ 24) × (i < length levels.now) × (0 < i → get_or strides.now (i - 1) 0 ≡ stride_of (plan levels.now []) (i - 1)) }
    ensures { result ≡ stride_of (plan levels.now []) i }
{
    if 0 < i {
        if levels[i - 1] == levels[i] {
            return strides[i - 1];
        }
    }
    stride_of(levels, levels[i])
}

// The stride of each column. By an index, since each is made from the one before it.
pub fn strides_of(levels: &[u8]) -> [u16; 24]
    requires { length levels.now ≤ 24 }
    ensures { Strides (plan levels.now []) result }
{
    let mut strides = [0u16; 24];
    for i in 0..levels.len() {
        let t = stride_at(&strides, levels, i);
        strides[i] = t;
    }
    strides
}

// How many of the places lent the plan may have a cell for: one more than all strides together.
pub fn places_of(strides: &[u16; 24], levels: &[u8], lent: usize) -> usize
    requires { (length levels.now ≤ 24) × Strides (plan levels.now []) strides.now }
    ensures { result ≤ lent }
{
    let mut all = 1;
    for stride in &strides[..levels.len()] {
        all += *stride;
    }
    usize::from(all).min(lent)
}
