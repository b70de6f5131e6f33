// The step-by-step evaluator: the checks, the work of crates/working, and the answer.
#![tactic(auto)]

ghost use Rattle.std.specs.Prelude.{◌≡◌, length};
ghost use Rattle.meaning.specs.Calls.{evaluate_call};
ghost use Rattle.evaluator.specs.Answers.{answered, concluding, standing};
ghost use Rattle.evaluator.specs.Attempts.{Attempts};

use codes::limits::LEVELS;
use codes::refusals::{Refusal, Stop};
use stack::Stood;
use working_parts::Scope;

// What a query gives: the number of its items, and their count.
#[derive(Clone, Copy)]
pub struct Evaluated {
    pub items: usize,
    pub count: usize,
}

// The answer where the query was worked out.
fn concluded(answer: Result<Stood, Stop>) -> Result<Evaluated, Refusal>
    ensures { result ≡ concluding answer }
{
    let stood = answer?;
    Ok(Evaluated {
        items: stood.length,
        count: stood.count,
    })
}

// Query, then catalogue, then work: refusal 1 to 3 of the query, 4 of the catalogue, 6 and 7 of the work. What stands
// past the items, or after a refusal, does not matter yet.
fn attempt(query: &[u8], doc: &[u8], work: &mut [i64]) -> Result<Evaluated, Refusal>
    ensures { Attempts (evaluate_call query.now doc.now (length work.old)) work.new result }
{
    queries::check(query)?;
    let rows = catalogue::check(doc)?;
    let room = lent::room_of(work.len());
    let scope = Scope {
        starts: [0; 8],
        lengths: [0; 8],
    };
    let answer = working::work_out(query, doc, rows, scope, 0, LEVELS, work, 0, room);
    concluded(answer)
}

// How many items are left: none after a refusal.
fn items_left(answer: Result<Evaluated, Refusal>) -> usize
    ensures { result ≡ standing answer }
{
    match answer {
        Ok(found) => found.items,
        Err(_) => 0,
    }
}

// The evaluator: a query over a catalogue. Its items stand from cell 0 on, every other cell is 0; the answer gives
// their number and their count. Query first, then catalogue, then work; a refusal leaves every cell at 0.
pub fn evaluate(query: &[u8], doc: &[u8], work: &mut [i64]) -> Result<Evaluated, Refusal>
    ensures { (answered result ≡ (evaluate_call query.now doc.now (length work.old)).answer)
        × (work.new ≡ (evaluate_call query.now doc.now
        (length work.old)).left) }
{
    let answer = attempt(query, doc, work);
    lent::clear(work, items_left(answer));
    answer
}
