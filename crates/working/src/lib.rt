// The work of the evaluator: a query worked out record by record, its items on one stack of lent cells.
#![tactic(auto)]

ghost use Rattle.std.specs.Prelude.{ℕ, ◌+◌, ◌≤◌, ◌<◌, Ok};
ghost use Rattle.meaning.specs.Catalogue.{catalogue_of};
ghost use Rattle.meaning.specs.World.{world_of};
ghost use Rattle.meaning.specs.Query;
ghost use Rattle.query_walks.specs.Parse.{parse, trees};
ghost use Rattle.step_parts.specs.Steps.{Known};
ghost use Rattle.stack.specs.Stack.{Fit, Lent};
ghost use Rattle.working_parts.specs.Scopes.{Scoped, Bindable};
ghost use Rattle.working.specs.Evaluating.{Works, Pairs, Turns};

use codes::refusals::Stop;
use query_records::Record;
use stack::{Pair, Stood};
use working_parts::{Scope, bound, ending, inner, selected, step, variable};

// Two operands, one behind the other on the stack; the second sees the items of the first in the binding's variable. A
// refusal of either is that of both.
#[cycle(choice_each_item_turns_two_work_out)]
fn two(
    query: &[u8],
    doc: &[u8],
    rows: usize,
    scope: Scope,
    binding: Option<usize>,
    at: usize,
    depth: usize,
    work: &mut [i64],
    top: usize,
    room: usize,
) -> Result<Pair, Stop>
    requires { Known doc.now rows × Scoped top scope × Lent top room work.old × Bindable binding }
    ensures { Pairs (world_of (catalogue_of doc.now rows)) (parse depth query.now) at binding
        top room scope work.old work.new result }
{
    let first = work_out(query, doc, rows, scope, at, depth, work, top, room)?;
    let above = top + first.length;
    let seen = inner(scope, binding, top, first.length);
    let second = work_out(query, doc, rows, seen, first.next, depth, work, above, room)?;
    Ok(stack::beside(first, second))
}

// The turns of a `for`: its body for each of a's items, which stand from top on, each turn's results behind those so
// far. The body's offset is where a ends. Every turn works out the body once; a refusal ends them.
#[cycle(choice_each_item_turns_two_work_out)]
fn turns(
    query: &[u8],
    doc: &[u8],
    rows: usize,
    scope: Scope,
    v: usize,
    a: Stood,
    next: usize,
    depth: usize,
    work: &mut [i64],
    top: usize,
    room: usize,
) -> Result<Pair, Stop>
    requires { Known doc.now rows × Scoped top scope × Lent top room work.old × (v < 8) × Fit top room (Ok a) }
    ensures { Turns (world_of (catalogue_of doc.now rows)) (parse depth query.now a.next) v
        top room a.length a.count next scope work.old work.new result }
{
    let base = top + a.length;
    let mut most = a.count;
    let mut done: usize = 0;
    for i in 0..a.length {
        let seen = bound(scope, v, top + i, 1);
        let turn = work_out(
            query,
            doc,
            rows,
            seen,
            a.next,
            depth,
            work,
            base + done,
            room,
        )?;
        most = most.max(a.length + done + turn.count);
        done += turn.length;
    }
    Ok(Pair {
        first: a.length,
        second: done,
        count: most,
        next,
    })
}

// QF: b's items for each item of a in order, moved down over a's.
#[cycle(choice_each_item_turns_two_work_out)]
fn each_item(
    query: &[u8],
    doc: &[u8],
    rows: usize,
    scope: Scope,
    v: usize,
    at: usize,
    depth: usize,
    work: &mut [i64],
    top: usize,
    room: usize,
) -> Result<Stood, Stop>
    requires { Known doc.now rows × Scoped top scope × Lent top room work.old × (v < 8) }
    ensures { (place : ℕ) → Works (world_of (catalogue_of doc.now rows))
        (trees (parse depth query.now) place at (Query.for v))
        top room scope work.old work.new result }
{
    let a = work_out(query, doc, rows, scope, at, depth, work, top, room)?;
    let end = query_walks::skip(query, a.next, depth);
    let results = turns(query, doc, rows, scope, v, a, end, depth, work, top, room)?;
    Ok(stack::drop_first(results, work, top))
}

// QI: the condition, then only the chosen branch.
#[cycle(choice_each_item_turns_two_work_out)]
fn choice(
    query: &[u8],
    doc: &[u8],
    rows: usize,
    scope: Scope,
    place: usize,
    at: usize,
    depth: usize,
    work: &mut [i64],
    top: usize,
    room: usize,
) -> Result<Stood, Stop>
    requires { Known doc.now rows × Scoped top scope × Lent top room work.old }
    ensures { Works (world_of (catalogue_of doc.now rows))
        (trees (parse depth query.now) place at Query.choice)
        top room scope work.old work.new result }
{
    let c = work_out(query, doc, rows, scope, at, depth, work, top, room)?;
    let end = top + c.length;
    let truth = items::truth(&work[top..end]).ok_or(Stop::Failed(place))?;
    let past = query_walks::skip(query, c.next, depth);
    let last = query_walks::skip(query, past, depth);
    let taken = selected(truth, c.next, past);
    let branch = work_out(query, doc, rows, scope, taken, depth, work, top, room)?;
    Ok(stack::raise(c.count, ending(branch, last)))
}

// The query at an offset, at most depth levels deep: its items are left on the stack from top on, above those that the
// scope's variables hold.
#[cycle(choice_each_item_turns_two_work_out)]
pub fn work_out(
    query: &[u8],
    doc: &[u8],
    rows: usize,
    scope: Scope,
    at: usize,
    depth: usize,
    work: &mut [i64],
    top: usize,
    room: usize,
) -> Result<Stood, Stop>
    requires { Known doc.now rows × Scoped top scope × Lent top room work.old }
    ensures { Works (world_of (catalogue_of doc.now rows)) (parse depth query.now at)
        top room scope work.old work.new result }
{
    if depth == 0 {
        // never: an accepted query is at most 32 levels deep
        return Err(Stop::Failed(at));
    }
    let reading = query_records::read(query, at);
    let Some(found) = reading else {
        // never: an accepted query has a record here
        return Err(Stop::Failed(at));
    };
    let kind = found.kind;
    let next = found.next;
    let left = depth - 1;
    match kind {
        Record::Literal(item) => stack::put(cells::cell_of(item), at, next, work, top, room),
        Record::Empty => Ok(Stood {
            length: 0,
            count: 0,
            next,
        }),
        Record::Root(k) => stack_records::root(doc, rows, k, at, next, work, top, room),
        Record::Variable(v) => variable(scope, v, at, next, work, top, room),
        Record::Sequence => {
            let pair = two(query, doc, rows, scope, None, next, left, work, top, room)?;
            Ok(stack::join(pair))
        }
        Record::Let(v) => {
            let pair = two(
                query,
                doc,
                rows,
                scope,
                Some(v),
                next,
                left,
                work,
                top,
                room,
            )?;
            Ok(stack::drop_first(pair, work, top))
        }
        Record::For(v) => each_item(query, doc, rows, scope, v, next, left, work, top, room),
        Record::If => choice(query, doc, rows, scope, at, next, left, work, top, room),
        Record::Apply(f) => {
            let pair = two(query, doc, rows, scope, None, next, left, work, top, room)?;
            stack_records::apply(f, pair, at, work, top)
        }
        Record::Count => {
            let a = work_out(query, doc, rows, scope, next, left, work, top, room)?;
            stack::number(a, at, work, top, room)
        }
        Record::Data => {
            let a = work_out(query, doc, rows, scope, next, left, work, top, room)?;
            stack_records::values(doc, rows, a, at, work, top)
        }
        Record::Step(axis, test) => {
            let a = work_out(query, doc, rows, scope, next, left, work, top, room)?;
            step(doc, rows, axis, test, a, at, work, top, room)
        }
    }
}
