// Operands of a typed query that have none inside them: each is read from a lent text, and its record is added to an
// array of 1,024 bytes.
#![tactic(auto)]

ghost use Rattle.std.specs.Prelude.{◌≡◌, ◌≤◌, length, drop};
ghost use Rattle.grammar.specs.Records.{record_ql};
ghost use Rattle.parsing.specs.Reader;
ghost use Rattle.recording.specs.Recorded.{most_bytes, Adds};
ghost use Rattle.operands.specs.Going;
ghost use Rattle.operands.specs.Single;

use numerals::{Stuck, spaces, word};
use parsing::Next;
use recording::{add_integer, add_root, add_truth, add_variable};
use spelling::{Before, called, fixed};

// What was read up to what stands behind it: that, where it ends, and how many record bytes there are then.
#[derive(Clone, Copy)]
pub struct Part<T> {
    pub behind: T,
    pub next: usize,
    pub made: usize,
}

// An operand, and what its last word is; or the place where no text of the grammar goes on.
pub type OperandRead = Result<Part<Before>, Stuck>;

// A part, and the word behind it.
pub type PartRead = Result<Part<Next>, Stuck>;

// Adds the record of a number or, where a minus stands before it, of its negative.
fn add_number(query: &mut [u8], made: usize, n: usize, minus: bool) -> usize
    requires { (length query.old ≡ most_bytes) × (made ≤ most_bytes) × (n ≤ 2147483648) }
    ensures { Adds (record_ql (Single.number_bits minus n)) made query.old query.new result }
{
    if minus {
        return add_integer(query, made, 0x1_0000_0000 - n);
    }
    add_integer(query, made, n)
}

// A number, behind its minus where there is one.
pub fn number(
    text: &[u8],
    query: &mut [u8],
    at: usize,
    made: usize,
    most: usize,
    minus: bool,
) -> OperandRead
    requires { (at ≤ length text.now) × (length query.old ≡ most_bytes) × (made ≤ most_bytes)
        × (most ≤ 2147483648) }
    ensures { Going.ReadsOperand text.now query.old query.new made
        (Single.number_operand most minus (drop at text.now)) result }
{
    let n = numerals::number(text, at, most)?;
    let to = add_number(query, made, n.what, minus);
    Ok(Part {
        behind: Before::Word,
        next: n.next,
        made: to,
    })
}

// A variable behind its `$`.
pub fn variable(text: &[u8], query: &mut [u8], at: usize, made: usize) -> OperandRead
    requires { (at ≤ length text.now) × (length query.old ≡ most_bytes) × (made ≤ most_bytes) }
    ensures { Going.ReadsOperand text.now query.old query.new made
        (Single.variable_operand (drop at text.now)) result }
{
    let v = spelling::variable(text, at)?;
    let to = add_variable(query, made, v.what);
    Ok(Part {
        behind: Before::Name,
        next: v.next,
        made: to,
    })
}

// The rest of `true` or `false`, and its parentheses.
pub fn truth(
    text: &[u8],
    query: &mut [u8],
    at: usize,
    made: usize,
    rest: &[u8],
    value: bool,
) -> OperandRead
    requires { (at ≤ length text.now) × (length query.old ≡ most_bytes) × (made ≤ most_bytes) }
    ensures { Going.ReadsOperand text.now query.old query.new made
        (Reader.read_truth value rest.now (drop at text.now)) result }
{
    let next = called(text, at, rest)?;
    let to = add_truth(query, made, value);
    Ok(Part {
        behind: Before::Symbol,
        next,
        made: to,
    })
}

// The parenthesis behind the number of a fragment, which is 1 to 255.
fn root_close(text: &[u8], query: &mut [u8], at: usize, made: usize, k: usize) -> OperandRead
    requires { (at ≤ length text.now) × (length query.old ≡ most_bytes) × (made ≤ most_bytes) × (k ≤ 255) }
    ensures { Going.ReadsOperand text.now query.old query.new made
        (Single.root_close k (drop at text.now)) result }
{
    let none = k == 0;
    if none {
        return Err(Stuck(at));
    }
    let next = fixed(text, at, Before::Word, b")")?;
    let to = add_root(query, made, k);
    Ok(Part {
        behind: Before::Symbol,
        next,
        made: to,
    })
}

// The number of a fragment, from the spaces before it on.
fn root_number(text: &[u8], query: &mut [u8], at: usize, made: usize) -> OperandRead
    requires { (at ≤ length text.now) × (length query.old ≡ most_bytes) × (made ≤ most_bytes) }
    ensures { Going.ReadsOperand text.now query.old query.new made
        (Single.root_number (drop at text.now)) result }
{
    let k = numerals::number(text, spaces(text, at), 255)?;
    root_close(text, query, k.next, made, k.what)
}

// The parentheses behind `root`.
fn root_open(text: &[u8], query: &mut [u8], at: usize, made: usize) -> OperandRead
    requires { (at ≤ length text.now) × (length query.old ≡ most_bytes) × (made ≤ most_bytes) }
    ensures { Going.ReadsOperand text.now query.old query.new made
        (Reader.read_root (drop at text.now)) result }
{
    let next = fixed(text, at, Before::Word, b"(")?;
    root_number(text, query, next, made)
}

// The rest of `root`, and its fragment in parentheses.
pub fn root(text: &[u8], query: &mut [u8], at: usize, made: usize) -> OperandRead
    requires { (at ≤ length text.now) × (length query.old ≡ most_bytes) × (made ≤ most_bytes) }
    ensures { Going.ReadsOperand text.now query.old query.new made
        (Single.root_word (drop at text.now)) result }
{
    let next = word(text, at, b"oot")?;
    root_open(text, query, next, made)
}
