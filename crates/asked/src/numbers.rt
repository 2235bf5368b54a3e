// Answers told by numbers.
ghost use Rattle.std.specs.Prelude.{◌≡◌, [], ◌≤◌, length};
ghost use Rattle.std.specs.Result.{result_unwrap_or};
ghost use Rattle.exact.specs.Lists.{filled_to};
ghost use Rattle.rules.specs.Refusals.{refusal_in};
ghost use Rattle.asked.specs.Asked.{places_of, row_at, figures_of, case_of, ratio_in, verdict_number, numbers_of};

use compare::RefusedPlan;
use exact::fractions::Verdict;
use exact::lent;
use exact::listed::Numbers;
use resolution::Chart;
use rules::Refusal;
use words::Sums;

// The refusal in an answer.
pub fn refusal_in<T>(answer: &Result<T, Refusal>) -> Refusal
    ensures { result ≡ refusal_in answer.now }
{
    match answer {
        Ok(_) => Refusal::plain(0),
        Err(refused) => *refused,
    }
}

// Its number, and its places into the room.
pub fn told<T>(answer: &Result<T, Refusal>, places: &mut [usize; 2]) -> u64
    ensures number { result ≡ (refusal_in answer.now).number }
    ensures places { places.new ≡ places_of (refusal_in answer.now) }
{
    let refused = refusal_in(answer);
    *places = [refused.first, refused.second];
    refused.number
}

// The numbers of a list in front of zeros, all zeros in a refusal.
pub fn in_row<const N: usize>(answer: &Result<Numbers<N>, Refusal>) -> [usize; N]
    requires { length (result_unwrap_or answer.now []) ≤ N }
    ensures { result ≡ filled_to N 0 (result_unwrap_or answer.now []) }
{
    let mut row = [0; N];
    if let Ok(numbers) = answer {
        lent::copy(numbers.as_slice(), &mut row);
    }
    row
}

// The row sums at the place of a run, zeros in a refusal.
pub fn row_at(answer: &Result<[Sums; 256], Refusal>, run: u8) -> [i64; 24]
    ensures { result ≡ row_at answer.now run }
{
    match answer {
        Ok(rows) => rows[run as usize].sums,
        Err(_) => [0; 24],
    }
}

// A_R, A_(R+1) and the largest ratio, zeros in a refusal.
pub fn figures_of(answer: Result<Chart, Refusal>) -> [f64; 3]
    ensures { result ≡ figures_of answer }
{
    match answer {
        Ok(chart) => [chart.word, chart.next, chart.ratio],
        Err(_) => [0.0; 3],
    }
}

// 1 where the figure is a ratio, 0 where it is clear.
pub fn case_of(figure: Option<f64>) -> u64
    ensures { result ≡ case_of figure }
{
    u64::from(figure.is_some())
}

// The ratio, 0 where the figure is clear.
pub fn ratio_in(figure: Option<f64>) -> f64
    ensures { result ≡ ratio_in figure }
{
    figure.unwrap_or(0.0)
}

// Equal, better, worse: 0, 1, 2.
fn verdict_number(verdict: Verdict) -> u64
    ensures { result ≡ verdict_number verdict }
{
    match verdict {
        Verdict::Equal => 0,
        Verdict::Better => 1,
        Verdict::Worse => 2,
    }
}

// The verdict's number, 3 for not comparable, 4 for a refusal with its plan, number and places.
pub fn numbers_of(comparison: Result<Option<Verdict>, RefusedPlan>) -> [u64; 5]
    ensures { result ≡ numbers_of comparison }
{
    match comparison {
        Ok(Some(verdict)) => [verdict_number(verdict), 0, 0, 0, 0],
        Ok(None) => [3, 0, 0, 0, 0],
        Err(RefusedPlan { plan, refusal }) => [
            4,
            plan as u64,
            refusal.number,
            refusal.first as u64,
            refusal.second as u64,
        ],
    }
}
