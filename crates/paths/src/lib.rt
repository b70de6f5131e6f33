// What stands behind an operand of a typed query: steps, and the words that go on with another operand.
#![tactic(auto)]

ghost use Rattle.std.specs.Prelude.{◌≡◌, List, ℕ, ◌≤◌, length, drop};
ghost use Rattle.parsing.specs.Reader;
ghost use Rattle.spelling.specs.Answers;
ghost use Rattle.recording.specs.Recorded.{most_bytes, Inserts};
ghost use Rattle.operands.specs.Going;
ghost use Rattle.operands.specs.Single;

use codes::{Function, Test};
use numerals::Stuck;
use operands::{Part, PartRead};
use parsing::{Ends, Next};
use recording::{insert_function, insert_sequence, insert_step};
use spelling::Before;

// Puts the record of an operator in before its first operand.
#[tactic(auto, using(operands::proofs::Bytes::inserts_none))]
pub fn insert_operation(query: &mut [u8], start: usize, made: usize, next: Next) -> usize
    requires { (length query.old ≡ most_bytes) × (made ≤ most_bytes) × (start ≤ made) }
    ensures { Inserts (Reader.operation next) start made query.old query.new result }
{
    match next {
        Next::Star => insert_function(query, start, made, Function::Multiply),
        Next::Idiv => insert_function(query, start, made, Function::Divide),
        Next::Plus => insert_function(query, start, made, Function::Add),
        Next::Minus => insert_function(query, start, made, Function::Subtract),
        Next::Eq => insert_function(query, start, made, Function::Equal),
        Next::Lt => insert_function(query, start, made, Function::Less),
        Next::Comma => insert_sequence(query, start, made),
        Next::Slash | Next::Close | Next::Return | Next::Else | Next::End => made,
    }
}

// How tightly a word between two operands binds: what chain it goes on with.
pub fn tightness(next: Next) -> usize
    ensures { result ≡ Reader.tightness next }
{
    match next {
        Next::Slash => 4,
        Next::Star | Next::Idiv => 3,
        Next::Plus | Next::Minus => 2,
        Next::Eq | Next::Lt => 1,
        Next::Comma => 0,
        Next::Close | Next::Return | Next::Else | Next::End => 5,
    }
}

// What stands before an operand that comes behind a word.
pub fn kind_of(next: Next) -> Before
    ensures { Answers.kind_is result ≡ Reader.kind_of next }
{
    match next {
        Next::Idiv | Next::Eq | Next::Lt | Next::Return | Next::Else => Before::Word,
        _ => Before::Symbol,
    }
}

// What a test ends in.
fn test_kind(test: Test) -> Before
    ensures { Answers.kind_is result ≡ Reader.test_kind test }
{
    match test {
        Test::AnyNode | Test::Element | Test::Text => Before::Symbol,
        Test::Named(_) => Before::Name,
    }
}

// One step behind its `/`, put in before its operand, and the word behind it.
fn one_step(
    text: &[u8],
    query: &mut [u8],
    start: usize,
    at: usize,
    made: usize,
    ends: Ends,
    compared: bool,
) -> PartRead
    requires { (at ≤ length text.now) × (length query.old ≡ most_bytes) × (made ≤ most_bytes) × (start ≤ made) }
    ensures { (ys : List ℕ) → Going.FollowsPart text.now query.old query.new
        start made ys (Single.one_step ends compared ys (drop at text.now)) result }
{
    let step = step_words::step(text, at)?;
    let to = insert_step(query, start, made, step.what.axis, step.what.test);
    let found = next_words::next(text, step.next, ends, compared, test_kind(step.what.test))?;
    Ok(Part {
        behind: found.what,
        next: found.next,
        made: to,
    })
}

// The steps behind a part whose records begin at `start`.
fn steps(
    text: &[u8],
    query: &mut [u8],
    start: usize,
    part: Part<Next>,
    left: usize,
    ends: Ends,
    compared: bool,
) -> PartRead
    requires { (part.next ≤ length text.now) × (length query.old ≡ most_bytes) × (part.made ≤ most_bytes)
        × (start ≤ part.made) }
    ensures { (ys : List ℕ) → Going.FollowsPart text.now query.old query.new
        start part.made ys
        (Reader.more_steps (Reader.readers left) ends compared ys part.behind (drop part.next text.now)) result }
{
    let mut part = part;
    let mut left = left;
    // As it is: (d) each step says where the next begins, so no range counts them.
    while tightness(part.behind) == 4 {
        let next = one_step(text, query, start, part.next, part.made, ends, compared)?;
        if left == 0 {
            return Err(Stuck(next.next));
        }
        left -= 1;
        part = next;
    }
    Ok(part)
}

// The word behind an operand, and the steps between.
pub fn behind(
    text: &[u8],
    query: &mut [u8],
    start: usize,
    at: usize,
    made: usize,
    left: usize,
    ends: Ends,
    compared: bool,
    before: Before,
) -> PartRead
    requires { (at ≤ length text.now) × (length query.old ≡ most_bytes) × (made ≤ most_bytes) × (start ≤ made) }
    ensures { (ys : List ℕ) → Going.FollowsPart text.now query.old query.new
        start made ys (Single.behind_operand (Reader.readers left) ends compared (Answers.kind_is before) ys
        (drop at text.now)) result }
{
    let found = next_words::next(text, at, ends, compared, before)?;
    let part = Part {
        behind: found.what,
        next: found.next,
        made,
    };
    steps(text, query, start, part, left, ends, compared)
}
