// How a Single of a typed query begins, up to the first part inside it, with its record added to an array of 1,024
// bytes.
#![tactic(auto)]

ghost use Rattle.std.specs.Prelude.{◌≡◌, ℕ, ◌≤◌, ◌<◌, length, drop};
ghost use Rattle.parsing.specs.Reader;
ghost use Rattle.spelling.specs.Answers;
ghost use Rattle.recording.specs.Recorded.{most_bytes, Adds};
ghost use Rattle.parsing.specs.declared.Ends;
ghost use Rattle.beginnings.specs.Begun;

use numerals::{Stuck, byte, word};
use openings::opened;
use recording::{add_for, add_if, add_let};
use spelling::{Before, enter, fixed};

// How a Single begins: with a variable that is bound, the part that it is bound to coming at an offset, with so many
// record bytes, behind a word or a symbol; with `if`, its condition coming; with a comparison, of which the f of
// `false` is taken or not.
#[derive(Clone, Copy)]
pub enum Beginning {
    Binding {
        from: usize,
        made: usize,
        before: Before,
    },
    Choice {
        from: usize,
        made: usize,
    },
    Sides {
        from: usize,
        begun: bool,
    },
}

// What binds a variable: `for` or `let`.
#[derive(Clone, Copy)]
enum Binder {
    For,
    Let,
}

// Adds the record of a binding.
fn add_binding(query: &mut [u8], made: usize, binder: Binder, v: usize) -> usize
    requires { (length query.old ≡ most_bytes) × (made ≤ most_bytes) × (v < 256) }
    ensures { Adds (Begun.binding_record binder v) made query.old query.new result }
{
    match binder {
        Binder::For => add_for(query, made, v),
        Binder::Let => add_let(query, made, v),
    }
}

// The rest of `for` or `let`, its variable and the word behind that, and the record of the binding.
fn binding(
    text: &[u8],
    query: &mut [u8],
    at: usize,
    made: usize,
    rest: &[u8],
    behind: &[u8],
    before: Before,
    binder: Binder,
) -> Result<Beginning, Stuck>
    requires { (at ≤ length text.now) × (length query.old ≡ most_bytes) × (made ≤ most_bytes) }
    ensures { (rd : Reader.Readers) → (d : ℕ) → (e : Ends.Ends) → Begun.Begins text.now
        query.old query.new made rd d e (Begun.binding_part rd d e (Begun.binding_record binder)
        rest.now behind.now (Answers.kind_is before) (drop at text.now)) result }
{
    let begun = word(text, at, rest)?;
    let signed = fixed(text, begun, Before::Word, b"$")?;
    let v = spelling::variable(text, signed)?;
    let from = fixed(text, v.next, Before::Name, behind)?;
    let to = add_binding(query, made, binder, v.what);
    Ok(Beginning::Binding {
        from,
        made: to,
        before,
    })
}

// The rest of `if`, up to its condition.
fn choice(text: &[u8], query: &mut [u8], at: usize, made: usize) -> Result<Beginning, Stuck>
    requires { (at ≤ length text.now) × (length query.old ≡ most_bytes) × (made ≤ most_bytes) }
    ensures { (rd : Reader.Readers) → (d : ℕ) → (e : Ends.Ends) → Begun.Begins text.now
        query.old query.new made rd d e
        (Begun.choice_part rd d e (drop at text.now)) result }
{
    let from = opened(text, at, b"f")?;
    let to = add_if(query, made);
    Ok(Beginning::Choice { from, made: to })
}

// `for` and `false` begin alike.
fn for_or_false(text: &[u8], query: &mut [u8], at: usize, made: usize) -> Result<Beginning, Stuck>
    requires { (at ≤ length text.now) × (length query.old ≡ most_bytes) × (made ≤ most_bytes) }
    ensures { (rd : Reader.Readers) → (d : ℕ) → (e : Ends.Ends) → Begun.Begins text.now
        query.old query.new made rd d e
        (Begun.for_part rd d e (drop at text.now)) result }
{
    match byte(text, at) {
        111 => binding(
            text,
            query,
            at + 1,
            made,
            b"r",
            b"in",
            Before::Word,
            Binder::For,
        ), // b'o'
        _ => Ok(Beginning::Sides {
            from: at,
            begun: true,
        }),
    }
}

// A Single, past the spaces.
fn single_word(text: &[u8], query: &mut [u8], at: usize, made: usize) -> Result<Beginning, Stuck>
    requires { (at ≤ length text.now) × (length query.old ≡ most_bytes) × (made ≤ most_bytes) }
    ensures { (rd : Reader.Readers) → (d : ℕ) → (e : Ends.Ends) → Begun.Begins text.now
        query.old query.new made rd d e
        (Begun.single_word rd d e (drop at text.now)) result }
{
    match byte(text, at) {
        102 => for_or_false(text, query, at + 1, made), // b'f'
        108 => binding(
            text,
            query,
            at + 1,
            made,
            b"et",
            b":=",
            Before::Symbol,
            Binder::Let,
        ), // b'l'
        105 => choice(text, query, at + 1, made), // b'i'
        _ => Ok(Beginning::Sides {
            from: at,
            begun: false,
        }),
    }
}

// How a Single begins.
pub fn single(
    text: &[u8],
    query: &mut [u8],
    at: usize,
    made: usize,
    before: Before,
) -> Result<Beginning, Stuck>
    requires { (at ≤ length text.now) × (length query.old ≡ most_bytes) × (made ≤ most_bytes) }
    ensures { (rd : Reader.Readers) → (d : ℕ) → (e : Ends.Ends) → Begun.Begins text.now
        query.old query.new made rd d e
        (Reader.read_single rd d e (Answers.kind_is before) (drop at text.now)) result }
{
    let from = enter(text, at, before)?;
    single_word(text, query, from, made)
}
