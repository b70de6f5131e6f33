// The reader of typed queries: a text's records; or refusal 9, then 2 and 3 with the places of the records, then 8.
#![tactic(auto)]

ghost use Rattle.std.specs.Prelude.{◌≡◌, ◌≤◌, length};
ghost use Rattle.grammar.specs.Typed.{TypedCall};
ghost use Rattle.recording.specs.Recorded.{most_bytes};
ghost use Rattle.reader.specs.Answers.{outcome, bytes_of, cleared, HandsOut};

use codes::refusals::{Reason, Refusal};

// What the reader answers: how many records there are and how many bytes they have.
#[derive(Clone, Copy)]
pub struct Typed {
    pub records: usize,
    pub bytes: usize,
}

// The records of a typed text, handed out, whatever stands after them: 2, 3, then 8 at 0 where they are longer than the
// lent bytes.
fn hand_out(bytes: &[u8], query: &mut [u8]) -> Result<Typed, Refusal>
    requires { length bytes.now ≤ most_bytes }
    ensures { HandsOut bytes.now query.old query.new result }
{
    let records = queries::check(bytes)?;
    if query.len() < bytes.len() {
        return Err(Refusal {
            reason: Reason::Longer,
            place: 0,
        });
    }
    pen::put_word(query, 0, bytes);
    Ok(Typed {
        records,
        bytes: bytes.len(),
    })
}

// The records of a text: 9 where it is outside the grammar; else what its records are.
fn found(text: &[u8], query: &mut [u8]) -> Result<Typed, Refusal>
    ensures { TypedCall text.now (length query.old) (outcome result (cleared result query.new)) }
{
    let mut made = [0u8; 1024];
    match typing::expression(text, &mut made) {
        Ok(part) => hand_out(&made[0..part.made], query),
        Err(stuck) => Err(Refusal {
            reason: Reason::Outside,
            place: stuck.0,
        }),
    }
}

// How many bytes of records the answer counts: none after a refusal.
fn bytes_of(typed: Result<Typed, Refusal>) -> usize
    ensures { result ≡ bytes_of typed }
{
    match typed {
        Ok(records) => records.bytes,
        Err(_) => 0,
    }
}

// The reader: the records of a text, zeros after them. A refusal leaves zeros.
pub fn read(text: &[u8], query: &mut [u8]) -> Result<Typed, Refusal>
    ensures { TypedCall text.now (length query.old) (outcome result query.new) }
{
    let typed = found(text, query);
    pen::clear(query, bytes_of(typed));
    typed
}
