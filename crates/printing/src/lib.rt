// What program `chartask` prints for the bytes of its two files: all of it but the reading and the writing.
#![tactic(auto)]

ghost use Rattle.std.specs.Prelude.{◌≤◌, ◌≡◌, length};
ghost use Rattle.verdicts.specs.Compared.{told};
ghost use Rattle.printing.specs.Engines.{TextEnds, TellsText};

use answers::{keep_items, plan_told, run_told, second_told};
use verdicts::Told;

// Runs the plan, evaluates the query in the same cells, and writes what both told. The runner's items are kept before
// the cells are lent again.
fn both(
    translated: Told,
    query: &[u8],
    plan: &[u8],
    doc: &[u8],
    work: &mut [i64],
    kept: &mut [i64],
    text: &mut [u8],
) -> usize
    requires work_len { length work.old ≡ 8192 }
    requires in_bounds { (2730 ≤ length kept.old) × (87488 ≤ length text.old) }
    ensures { TextEnds (told translated) query.now plan.now doc.now kept.old
        kept.new work.new text.old text.new result }
{
    let ran = runner::run(plan, doc, work);
    keep_items(ran, work, kept);
    let told = second_told(ran, query, doc, work);
    lines::write(text, translated, run_told(ran), kept, told, work)
}

// Writes what `chartask` prints for a query and a catalogue, and answers how many bytes it is. The plan's bytes alone
// go to the runner; after a translator's refusal no engine is called.
pub fn tell(
    query: &[u8],
    doc: &[u8],
    plan: &mut [u8],
    work: &mut [i64],
    kept: &mut [i64],
    text: &mut [u8],
) -> usize
    requires plan_len { (length plan.old ≡ 6144) × (length work.old ≡ 8192) }
    requires in_bounds { (2730 ≤ length kept.old) × (87488 ≤ length text.old) }
    ensures { TellsText query.now doc.now plan.new work.old
        work.new
        kept.old kept.new text.old text.new result }
{
    let translated = translator::translate(query, plan);
    let told = plan_told(translated);
    match translated {
        // After a refusal nothing of the engines is printed: it stands for what they told.
        Err(refusal) => {
            let refused: Told = Err(refusal.into());
            lines::write(text, told, refused, kept, refused, work)
        }
        Ok(made) => both(told, query, &plan[0..made.bytes], doc, work, kept, text),
    }
}
