// The translator: the query check, the plan that crates/translating writes over lent bytes, and the answer.
#![tactic(auto)]

ghost use Rattle.std.specs.Prelude.{◌≡◌, length};
ghost use Rattle.meaning.specs.Calls.{translate_call};
ghost use Rattle.translator.specs.Answers.{answered, kept, cleared, WholeQuery, Concludes, Translates};

use adding::{Operator, Pen};
use codes::limits::{LEVELS, OPERATORS};
use codes::refusals::{Reason, Refusal};

// A plan that was written: how many operators it has, and how many bytes.
#[derive(Clone, Copy)]
pub struct Translated {
    pub operators: usize,
    pub bytes: usize,
}

// The plan of an accepted query; 2 at 0 over 512 operators, then 8 at 0 where it is longer than the lent bytes.
fn whole(query: &[u8], plan: &mut [u8]) -> Result<Translated, Refusal>
    requires { WholeQuery query.now }
    ensures { Concludes query.now plan.old (cleared (kept result) plan.new) result }
{
    let start = Pen {
        operators: 0,
        at: 0,
    };
    let first = adding::add(plan, start, Operator::First);
    let body = translating::expression(query, 0, LEVELS, 0, [0; 8], first, plan);
    let pen = body.pen;
    let end = rules::last(plan, pen, body.table);
    let operators = end.operators;
    let bytes = end.at;
    let many = OPERATORS < operators;
    let longer = plan.len() < bytes;
    if many {
        return Err(Refusal {
            reason: Reason::Excess,
            place: 0,
        });
    }
    if longer {
        return Err(Refusal {
            reason: Reason::Longer,
            place: 0,
        });
    }
    Ok(Translated { operators, bytes })
}

// The query's refusals 1, 2, 3, then those of its plan; else the plan.
fn planned(query: &[u8], plan: &mut [u8]) -> Result<Translated, Refusal>
    ensures { Translates query.now plan.old (cleared (kept result) plan.new) result }
{
    queries::check(query)?;
    whole(query, plan)
}

// How many bytes the answer leaves: those of the plan, none after a refusal.
fn kept(answer: Result<Translated, Refusal>) -> usize
    ensures { result ≡ kept answer }
{
    match answer {
        Ok(translated) => translated.bytes,
        Err(_) => 0,
    }
}

// The translator: the query's refusals 1, 2, 3; then 2 at 0 over 512 operators; then 8 at 0; else the plan, zeros after
// it. A refusal leaves zeros.
pub fn translate(query: &[u8], plan: &mut [u8]) -> Result<Translated, Refusal>
    ensures { (answered result ≡ (translate_call query.now (length plan.old)).answer) ×
        (plan.new ≡ (translate_call query.now (length plan.old)).left) }
{
    let answer = planned(query, plan);
    pen::clear(plan, kept(answer));
    answer
}
