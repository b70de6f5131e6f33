// The runner: the checks, the work of crates/running, and the answer.
#![tactic(auto)]

ghost use Rattle.std.specs.Prelude.{◌≡◌, length};
ghost use Rattle.meaning.specs.Calls.{run_call};
ghost use Rattle.runner.specs.Answers.{answered, filled_by};
ghost use Rattle.runner.specs.Calling.{LeavesRan};

use codes::refusals::Refusal;
use running::Tables;

// What a run answers: the tables; or refusal 5, 4, 6 or 7 and its place.
pub type Ran = Result<Tables, Refusal>;

// Plan, then catalogue, then work. What stands past the tables, or after a refusal, does not matter yet.
fn attempt(plan: &[u8], doc: &[u8], work: &mut [i64]) -> Ran
    ensures { LeavesRan (run_call plan.now doc.now (length work.old))
        work.new result }
{
    plans::check(plan)?;
    let rows = catalogue::check(doc)?;
    let tables = running::work_out(plan, doc, rows, work)?;
    Ok(tables)
}

// The cells that the tables fill: none after a refusal.
fn filled_by(answer: Ran) -> usize
    ensures { result ≡ filled_by answer }
{
    answer.map_or(0, |tables| tables.filled)
}

// Runs a plan over a catalogue in the lent cells. All tables stand there end to end, and zeros after them; after a
// refusal there are only zeros.
pub fn run(plan: &[u8], doc: &[u8], work: &mut [i64]) -> Ran
    ensures answer { answered result
        ≡ (run_call plan.now doc.now (length work.old)).answer }
    ensures cells { work.new
        ≡ (run_call plan.now doc.now (length work.old)).left }
{
    let ran = attempt(plan, doc, work);
    lent::clear(work, filled_by(ran));
    ran
}
