// For our own crates: the numbers in which GR and the charts are given.
ghost use Rattle.std.specs.Prelude.{◌≡◌, ◌≤◌, ◌<◌, ◌^◌, nat_abs};
ghost use Rattle.std.specs.Float.{binary64};
ghost use Rattle.std.specs.Float.Ieee.{of_int};
ghost use Rattle.resolution.specs.Resolution.{root_of};
ghost use Rattle.resolution.specs.Charts.{quotient, figure_of};

use exact::fractions::Fraction;
use exact::signed;

// q, the smallest whole number for which q² · den is at least 1,000,000 · num. A ratio of at most 1 has it by 1000.
pub fn root(x: Fraction) -> u64
    requires { (x.num ≤ x.den) × (x.den < 2 ^ 32) }
    ensures { result ≡ root_of x }
{
    let wanted = 1_000_000 * x.num;
    for q in 0..1000 {
        if wanted <= q * q * x.den {
            return q;
        }
    }
    1000
}

// A whole number as an f64, without loss.
fn exact(n: i64) -> f64
    requires { nat_abs n ≤ 2 ^ 53 }
    ensures { result ≡ of_int binary64 n }
{
    n as f64
}

// The f64 nearest to num / den: one division of two numbers that an f64 holds exactly.
#[tactic(auto, unfolding(crate::specs::Charts::quotient))]
pub fn quotient(num: i64, den: u64) -> f64
    requires { (nat_abs num ≤ 2 ^ 53) × (den ≤ 2 ^ 53) }
    ensures { result ≡ quotient num den }
{
    exact(num) / exact(signed::of_u64(den))
}

// A ratio as a figure, and none where it is zero, which is clear.
pub fn ratio_figure(x: Fraction) -> Option<f64>
    requires { (x.num ≤ 2 ^ 53) × (x.den ≤ 2 ^ 53) }
    ensures { result ≡ figure_of x }
{
    if x.num == 0 {
        return None;
    }
    Some(quotient(signed::of_u64(x.num), x.den))
}
