// What each call answered, as it is told: how many it gave, or its refusal. Between the two engines the runner's items
// are kept, and the evaluator is asked where that can change what is printed.
#![tactic(auto)]

ghost use Rattle.std.specs.Prelude.{◌≡◌, ◌≤◌, length};
ghost use Rattle.laws.specs.Rows.{rows_at, laid};
ghost use Rattle.meaning.specs.Operators.{column};
ghost use Rattle.translator.specs.Answers as Translator;
ghost use Rattle.runner.specs.Answers as Runner;
ghost use Rattle.evaluator.specs.Answers as Evaluator;
ghost use Rattle.verdicts.specs.Compared.{told};
ghost use Rattle.lines.specs.Printed.{value_of, told_by};
ghost use Rattle.answers.specs.Second.{second, Within};

use codes::refusals::{Reason, Refusal};
use evaluator::Evaluated;
use runner::Ran;
use translator::Translated;
use verdicts::Told;

// What the translator told: its operators, or its refusal.
pub fn plan_told(translated: Result<Translated, Refusal>) -> Told
    ensures { told result ≡ told_by 0 (Translator.answered translated) }
{
    Ok(translated?.operators)
}

// What the runner told: the rows of its last table, or its refusal.
pub fn run_told(ran: Ran) -> Told
    ensures { told result ≡ told_by 1 (Runner.answered ran) }
{
    Ok(ran?.rows)
}

// What the evaluator told: its items, or its refusal.
pub fn evaluation_told(evaluated: Result<Evaluated, Refusal>) -> Told
    ensures { told result ≡ told_by 0 (Evaluator.answered evaluated) }
{
    Ok(evaluated?.items)
}

// Keeps the items of the runner's last table; there are none after a refusal.
pub fn keep_items(ran: Ran, work: &[i64], kept: &mut [i64])
    requires { Within (Runner.answered ran) (length work.now)
        × (value_of 1 (Runner.answered ran) ≤ length kept.old) }
    ensures { kept.new ≡ laid kept.old 0
        (column (rows_at work.now (value_of 0 (Runner.answered ran))
        (value_of 1 (Runner.answered ran)) 3) 2) }
{
    if let Ok(tables) = ran {
        lines::copy_items(work, tables.start, tables.rows, kept);
    }
}

// What the evaluator told, in the same cells. Where the runner had no room the text is decided, and the evaluator is
// not asked: it could take for ever.
pub fn second_told(ran: Ran, query: &[u8], doc: &[u8], work: &mut [i64]) -> Told
    ensures { (told result ≡ told_by 0 (second (Runner.answered ran) work.old query.now
        doc.now).answer)
        × (work.new ≡ (second (Runner.answered ran) work.old query.now
        doc.now).left) }
{
    match ran {
        Err(refusal) if refusal.reason == Reason::Room => Err(refusal.into()),
        _ => evaluation_told(evaluator::evaluate(query, doc, work)),
    }
}
