// What program `charttext` prints for the bytes of its two files: all of it but the reading and the writing of files.
#![tactic(auto)]

ghost use Rattle.std.specs.Prelude.{◌≤◌, ◌≡◌, length, take};
ghost use Rattle.lines.specs.Text.{same_no, Nowhere};
ghost use Rattle.typed_printing.specs.Telling.{TellsTyped};

use verdicts::Told;

// Writes what `charttext` prints for a typed query and a catalogue, and answers how many bytes it is. The records alone
// go on; after the reader's refusal nothing else is called.
pub fn tell(
    typed: &[u8],
    doc: &[u8],
    query: &mut [u8],
    plan: &mut [u8],
    work: &mut [i64],
    kept: &mut [i64],
    text: &mut [u8],
) -> usize
    requires query_len { length query.old ≡ 1024 }
    requires plan_len { (length plan.old ≡ 6144) × (length work.old ≡ 8192) }
    requires in_bounds { (2730 ≤ length kept.old) × (87488 ≤ length text.old) }
    ensures { TellsTyped typed.now doc.now query.new plan.old
        plan.new work.old work.new kept.old kept.new
        text.old text.new result
        × (result ≤ length text.new) × Nowhere same_no (take result text.new) }
{
    let read = reader::read(typed, query);
    match read {
        // After a refusal nothing of the engines is printed: it stands for what they told.
        Err(refusal) => {
            let told: Told = Err(refusal.into());
            lines::write(text, told, told, kept, told, work)
        }
        Ok(made) => printing::tell(&query[0..made.bytes], doc, plan, work, kept, text),
    }
}
