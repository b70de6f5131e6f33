// How an operand begins: read as far as no part inside it has to be read, from a lent text, with its record added to an
// array of 1,024 bytes.
#![tactic(auto)]

ghost use Rattle.std.specs.Prelude.{◌≡◌, List, ℕ, ◌≤◌, length, drop};
ghost use Rattle.parsing.specs.Reader;
ghost use Rattle.spelling.specs.Answers;
ghost use Rattle.recording.specs.Recorded.{most_bytes, Adds};
ghost use Rattle.openings.specs.Opened;

use numerals::{Fixed, Stuck, byte, is_digit, spaces, word};
use operands::Part;
use recording::{add_count, add_data, add_empty};
use spelling::{Before, fixed};

// How an operand begins: it is read whole; or a list comes, with so many parentheses left inside; or the operand of a
// call, with so many record bytes then.
#[derive(Clone, Copy)]
pub enum Opening {
    Whole(Part<Before>),
    List { from: usize, parens: usize },
    Call { from: usize, made: usize },
}

// How an operand begins; or the place where no text of the grammar goes on.
pub type OpeningRead = Result<Opening, Stuck>;

// The rest of a word of letters, and the parenthesis behind it.
pub fn opened(text: &[u8], at: usize, rest: &[u8]) -> Fixed
    requires { at ≤ length text.now }
    ensures { Answers.ReadsFixed text.now result
        (Opened.opened_word rest.now (drop at text.now)) }
{
    let next = word(text, at, rest)?;
    fixed(text, next, Before::Word, b"(")
}

// What is called: `count` or `data`.
#[derive(Clone, Copy)]
enum Callee {
    Count,
    Data,
}

// Adds the record of a call.
fn add_call(query: &mut [u8], made: usize, callee: Callee) -> usize
    requires { (length query.old ≡ most_bytes) × (made ≤ most_bytes) }
    ensures { Adds (Opened.call_record callee) made query.old query.new result }
{
    match callee {
        Callee::Count => add_count(query, made),
        Callee::Data => add_data(query, made),
    }
}

// The rest of `count` or `data`, up to its operand.
fn call(
    text: &[u8],
    query: &mut [u8],
    at: usize,
    made: usize,
    rest: &[u8],
    callee: Callee,
) -> OpeningRead
    requires { (at ≤ length text.now) × (length query.old ≡ most_bytes) × (made ≤ most_bytes) }
    ensures { (rd : Reader.Readers) → (d : ℕ) → Opened.Opens text.now query.old
        query.new made rd d
        (Opened.called_part rd d rest.now (Opened.call_record callee) (drop at text.now)) result }
{
    let from = opened(text, at, rest)?;
    let to = add_call(query, made, callee);
    Ok(Opening::Call { from, made: to })
}

// Behind `(`: the empty sequence, or a list while parentheses are left.
fn group(text: &[u8], query: &mut [u8], at: usize, made: usize, parens: usize) -> OpeningRead
    requires { (at ≤ length text.now) × (length query.old ≡ most_bytes) × (made ≤ most_bytes) }
    ensures { (rd : Reader.Readers) → Opened.Opens text.now query.old
        query.new made rd parens (Reader.read_group rd parens (drop at text.now)) result }
{
    let from = spaces(text, at);
    let b = byte(text, from);
    if b == usize::from(b')') {
        let to = add_empty(query, made);
        return Ok(Opening::Whole(Part {
            behind: Before::Symbol,
            next: from + 1,
            made: to,
        }));
    }
    let none = parens == 0;
    if none {
        return Err(Stuck(from));
    }
    Ok(Opening::List {
        from,
        parens: parens - 1,
    })
}

// An operand, past the spaces.
pub fn primary(text: &[u8], query: &mut [u8], at: usize, made: usize, parens: usize) -> OpeningRead
    requires { (at ≤ length text.now) × (length query.old ≡ most_bytes) × (made ≤ most_bytes) }
    ensures { (rd : Reader.Readers) → Opened.Opens text.now query.old
        query.new made rd parens (Reader.read_primary rd parens (drop at text.now)) result }
{
    let b = byte(text, at);
    if is_digit(b) {
        return operands::number(text, query, at, made, 2147483647, false).map(Opening::Whole);
    }
    match b {
        45 => operands::number(text, query, at + 1, made, 2147483648, true).map(Opening::Whole), // b'-'
        36 => operands::variable(text, query, at + 1, made).map(Opening::Whole), // b'$'
        116 => operands::truth(text, query, at + 1, made, b"rue", true).map(Opening::Whole), // b't'
        102 => operands::truth(text, query, at + 1, made, b"alse", false).map(Opening::Whole), // b'f'
        40 => group(text, query, at + 1, made, parens), // b'('
        114 => operands::root(text, query, at + 1, made).map(Opening::Whole), // b'r'
        99 => call(text, query, at + 1, made, b"ount", Callee::Count), // b'c'
        100 => call(text, query, at + 1, made, b"ata", Callee::Data), // b'd'
        _ => Err(Stuck(at)),
    }
}
