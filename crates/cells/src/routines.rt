// For our own crates: the cell of two runs.
ghost use Rattle.std.specs.Prelude.{◌≡◌, [], ◌∷◌};
ghost use Rattle.rules.specs.Plan.{plan};
ghost use Rattle.plan.specs.Good.{Sound};
ghost use Rattle.cells.specs.Cells.{cell_of, Strides};

use crate::strides::same;

// The cell of two runs. It is worked out without a branch, and by an index: of three rows zipped the compiler makes no vectors, and takes
// five times as long.
pub fn cell(strides: &[u16; 24], levels: &[u8], table: &[u8], f: usize, g: usize) -> u16
    requires { let p = plan levels.now table.now in Strides p strides.now × (Sound p (f ∷ []) × Sound p (g ∷ [])) }
    ensures { result ≡ cell_of (plan levels.now table.now) f g }
{
    let m = levels.len();
    let mut c = 0;
    for i in 0..m {
        c += strides[i] * same(table[f * m + i], table[g * m + i]);
    }
    c
}
