// The writer of typed queries: the query check, the text of the query's expressions over lent bytes, and the answer.
#![tactic(auto)]

ghost use Rattle.std.specs.Prelude.{◌≡◌, length};
ghost use Rattle.grammar.specs.Written.{text_of, write_call};
ghost use Rattle.query_walks.specs.Parse.{parse};
ghost use Rattle.levels.specs.Levels.{level_of};
ghost use Rattle.wording.specs.Wording.{Asked, AskedOperands, AskedTwo, AskedThree};
ghost use Rattle.wording.specs.Wording.{Makes, MakesOperands, MakesTwo, MakesThree};
ghost use Rattle.wording.specs.Answers.{answered, WritesWhole};

use codes::limits::LEVELS;
use codes::refusals::{Reason, Refusal};
use levels::Level;
use query_records::{Operands, Record};

// Where writing stands behind an expression: the offset after its records, the position after its text.
#[derive(Clone, Copy)]
pub struct Spot {
    pub next: usize,
    pub end: usize,
}

// The text of the expression at an offset, at most depth levels deep, where a level is asked for. An accepted query has
// an expression there.
#[cycle(expression_operands_three_two)]
fn expression(
    query: &[u8],
    at: usize,
    depth: usize,
    level: Level,
    text: &mut [u8],
    end: usize,
) -> Spot
    requires { Asked (parse depth query.now at) (text_of (level_of level)) end }
    ensures { Makes (parse depth query.now at) (text_of (level_of level)) text.old end
        text.new result }
{
    let Some(found) = query_records::read(query, at) else {
        // never: an accepted query has a record here
        return Spot { next: at, end };
    };
    let kind = found.kind;
    let next = found.next;
    let left = depth - 1;
    let grouped = levels::looser(levels::own(kind), level);
    let opened = phrases::put_open(text, end, grouped);
    let headed = phrases::put_head(text, opened, kind);
    let inner = operands(query, next, left, kind, text, headed);
    let tailed = phrases::put_tail(text, inner.end, kind);
    let closed = phrases::put_close(text, tailed, grouped);
    Spot {
        next: inner.next,
        end: closed,
    }
}

// The texts of a record's operands, which stand from an offset on, with what stands between them.
#[cycle(expression_operands_three_two)]
fn operands(
    query: &[u8],
    at: usize,
    depth: usize,
    kind: Record,
    text: &mut [u8],
    end: usize,
) -> Spot
    requires { AskedOperands (parse depth query.now) at kind end }
    ensures { MakesOperands (parse depth query.now) at kind text.old end text.new result }
{
    match query_records::following(kind) {
        Operands::None => Spot { next: at, end },
        Operands::Variable(_) => Spot { next: at, end },
        Operands::One => expression(query, at, depth, levels::first(kind), text, end),
        Operands::Two => two(query, at, depth, kind, text, end),
        Operands::Binding(_) => two(query, at, depth, kind, text, end),
        Operands::Three => three(query, at, depth, text, end),
    }
}

// Two operands.
#[cycle(expression_operands_three_two)]
fn two(query: &[u8], at: usize, depth: usize, kind: Record, text: &mut [u8], end: usize) -> Spot
    requires { AskedTwo (parse depth query.now) at kind end }
    ensures { MakesTwo (parse depth query.now) at kind text.old end text.new result }
{
    let a = expression(query, at, depth, levels::first(kind), text, end);
    let between = phrases::put_between(text, a.end, kind);
    expression(query, a.next, depth, levels::second(kind), text, between)
}

// The three operands of QI.
#[cycle(expression_operands_three_two)]
fn three(query: &[u8], at: usize, depth: usize, text: &mut [u8], end: usize) -> Spot
    requires { AskedThree (parse depth query.now) at end }
    ensures { MakesThree (parse depth query.now) at text.old end text.new result }
{
    let c = expression(query, at, depth, Level::Expr, text, end);
    let first = pen::put_word(text, c.end, b") then ");
    let a = expression(query, c.next, depth, Level::Single, text, first);
    let second = pen::put_word(text, a.end, b" else ");
    expression(query, a.next, depth, Level::Single, text, second)
}

// The text of a query over lent bytes, whatever stands after it: the query's refusals 1, 2, 3; then 8 at 0 where it is
// longer than the lent bytes.
fn whole(query: &[u8], text: &mut [u8]) -> Result<usize, Refusal>
    ensures { WritesWhole query.now text.old text.new result }
{
    queries::check(query)?;
    let spot = expression(query, 0, LEVELS, Level::Expr, text, 0);
    let bytes = spot.end;
    if text.len() < bytes {
        return Err(Refusal {
            reason: Reason::Longer,
            place: 0,
        });
    }
    Ok(bytes)
}

// The writer: the query's refusals 1, 2, 3; then 8 at 0; else the text, zeros after it. A refusal leaves zeros.
pub fn write(query: &[u8], text: &mut [u8]) -> Result<usize, Refusal>
    ensures { (answered result ≡ (write_call query.now (length text.old)).answer) ×
        (text.new ≡ (write_call query.now (length text.old)).left) }
{
    let written = whole(query, text);
    pen::clear(text, written.unwrap_or(0));
    written
}
