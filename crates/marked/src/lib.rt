// For our own crates: how a call of a C program begins, which hands over a plan and a mark for each run.
#![tactic(auto)]

ghost use Rattle.std.specs.Prelude.{◌≡◌, [], not, map, ◌≤◌, eqb, length};
ghost use Rattle.rules.specs.Plan.{plan, most_runs};
ghost use Rattle.rules.specs.Refusals.{refusal, answered};
ghost use Rattle.held.specs.Held.{standing};
ghost use Rattle.marked.specs.Marked.{marked_runs, of_marked};

use exact::listed::Numbers;
use rules::Refusal;
use rules::sizes::MOST_RUNS;

// The runs whose mark is not 0, in number order.
fn standing_in(marks: &[u8]) -> Numbers<MOST_RUNS>
    requires { length marks.now ≤ most_runs }
    ensures { result ≡ standing (map (λ b. not (eqb b 0)) marks.now) }
{
    let mut standing = Numbers::new();
    for (f, mark) in marks.iter().enumerate() {
        if *mark != 0 {
            standing.push(f);
        }
    }
    standing
}

// How the call begins, and the runs that stand. Without a mark all runs stand.
pub fn marked_runs(levels: &[u8], table: &[u8], marks: &[u8]) -> Result<Numbers<MOST_RUNS>, Refusal>
    ensures { let p = plan levels.now table.now in
        result ≡ answered (refusal (of_marked p marks.now [])) (marked_runs p marks.now) }
{
    let runs = plan::routines::checked_runs(levels, table)?;
    if marks.is_empty() {
        return Ok(runs);
    }
    let count = runs.len();
    if marks.len() != count {
        return Err(Refusal::plain(8));
    }
    let standing = standing_in(marks);
    Refusal::too_few(1, standing.len())?;
    Ok(standing)
}
