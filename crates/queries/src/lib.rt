// The query check: the records of a query from left to right, their number, their depth and their variables.
#![tactic(auto)]

ghost use Rattle.std.specs.Prelude.{◌≡◌, false, get_or};
ghost use Rattle.laws.specs.Attempt.{reads, unless};
ghost use Rattle.codes.specs.Refusals.{refusal};
ghost use Rattle.meaning.specs.Calls.{query_call};
ghost use Rattle.queries.specs.Answers.{answered, walked};
ghost use Rattle.queries.specs.Walk.{walk, two, three};

use codes::limits::{LEVELS, RECORDS};
use codes::refusals::{Reason, Refusal};
use query_records::flags::{flag, with};
use query_records::{Operands, following, read};

// How far the query check came: past an operand, at an offset, after so many records.
#[derive(Clone, Copy)]
struct Passed {
    next: usize,
    records: usize,
}

// The refusal for a reason, at a place.
fn refused(reason: Reason, place: usize) -> Refusal
    ensures { result ≡ refusal reason place }
{
    Refusal { reason, place }
}

// A variable at an offset, so many records with it.
fn lookup(
    flags: [bool; 8],
    v: usize,
    at: usize,
    next: usize,
    records: usize,
) -> Result<Passed, Refusal>
    ensures { walked result ≡ unless (get_or flags v false) 3 at (reads (next, records)) }
{
    if flag(flags, v) {
        Ok(Passed { next, records })
    } else {
        Err(refused(Reason::Unbound, at))
    }
}

// The query at an offset: depth more levels are allowed, n records stand before it, and flags says which variables
// are bound.
// As it is: (a) recursion over operands by depth, and `let .. else` at a reader's answer, are forms of document 01.
#[cycle(operand_three_operands_two_operands)]
fn operand(
    query: &[u8],
    at: usize,
    depth: usize,
    n: usize,
    flags: [bool; 8],
) -> Result<Passed, Refusal>
    ensures { walked result ≡ walk depth query.now flags n at }
{
    let Some(found) = read(query, at) else {
        return Err(refused(Reason::Record, at));
    };
    if depth == 0 {
        return Err(refused(Reason::Excess, at));
    }
    let full = RECORDS <= n;
    if full {
        return Err(refused(Reason::Excess, at));
    }
    let kind = found.kind;
    let next = found.next;
    let left = depth - 1;
    let records = n + 1;
    match following(kind) {
        Operands::None => Ok(Passed { next, records }),
        Operands::Variable(v) => lookup(flags, v, at, next, records),
        Operands::One => operand(query, next, left, records, flags),
        Operands::Two => two_operands(query, next, left, records, flags, flags),
        Operands::Binding(v) => {
            let inner = with(flags, v, true);
            two_operands(query, next, left, records, flags, inner)
        }
        Operands::Three => three_operands(query, next, left, records, flags),
    }
}

// Two operands, the first under the flags outer, the second under inner.
#[cycle(operand_three_operands_two_operands)]
fn two_operands(
    query: &[u8],
    at: usize,
    depth: usize,
    n: usize,
    outer: [bool; 8],
    inner: [bool; 8],
) -> Result<Passed, Refusal>
    ensures { walked result ≡ two (walk depth query.now) outer inner n at }
{
    let Passed { next, records } = operand(query, at, depth, n, outer)?;
    operand(query, next, depth, records, inner)
}

#[cycle(operand_three_operands_two_operands)]
fn three_operands(
    query: &[u8],
    at: usize,
    depth: usize,
    n: usize,
    flags: [bool; 8],
) -> Result<Passed, Refusal>
    ensures { walked result ≡ three (walk depth query.now) flags n at }
{
    let Passed { next, records } = operand(query, at, depth, n, flags)?;
    two_operands(query, next, depth, records, flags, flags)
}

// The query check: the number of records, or refusal 1, 2 or 3.
pub fn check(query: &[u8]) -> Result<usize, Refusal>
    ensures { answered result ≡ query_call query.now }
{
    let Passed { next, records } = operand(query, 0, LEVELS, 0, [false; 8])?;
    if next == query.len() {
        Ok(records)
    } else {
        Err(refused(Reason::Record, next))
    }
}
