// For our own crates: each answer, of a rating; that for the resolution alone, of the words.
ghost use Rattle.std.specs.Prelude.{◌≡◌, ◌≤◌};
ghost use Rattle.rules.specs.Plan.{most_columns};
ghost use Rattle.resolution.specs.Charts.{figure_of};
ghost use Rattle.resolution.specs.Given.{Small, resolution_from, generalized_from, chart_from};

use crate::numbers::{quotient, ratio_figure, root};
use crate::routines::{Rating, resolution};
use crate::{Chart, GeneralizedResolution};
use exact::signed;
use rules::Refusal;

// R of a plan of m columns, whose words these are; 11 where it has none.
pub fn resolution_answer(words: &[i64; 24], m: usize) -> Result<usize, Refusal>
    requires { m ≤ most_columns }
    ensures { result ≡ resolution_from words.now m }
{
    let size = resolution(words, m);
    if m < size {
        return Err(Refusal::plain(11));
    }
    Ok(size)
}

// R, the largest ratio, and GR in thousandths.
pub fn generalized_of(x: Rating) -> GeneralizedResolution
    requires { Small x }
    ensures { result ≡ generalized_from x }
{
    GeneralizedResolution {
        resolution: x.resolution,
        ratio: x.largest,
        thousandths: 1000 * (x.resolution as u64 + 1) - root(x.largest),
    }
}

// A_R, A_(R+1) and the largest ratio, each one division.
pub fn chart_of(x: Rating) -> Chart
    requires { Small x }
    ensures { result ≡ chart_from x }
{
    let largest = x.largest;
    let word = quotient(x.word, x.pairs);
    let ratio = quotient(signed::of_u64(largest.num), largest.den);
    if x.resolution == x.columns {
        return Chart {
            word,
            next: 0.0,
            ratio,
        };
    }
    let next = quotient(x.next, x.pairs);
    Chart { word, next, ratio }
}

// The column's ratio as a figure.
pub fn figure_of(x: Rating) -> Option<f64>
    requires { Small x }
    ensures { result ≡ figure_of x.held }
{
    ratio_figure(x.held)
}
