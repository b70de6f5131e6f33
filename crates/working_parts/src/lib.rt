// What the evaluator does at a record apart from working out its operands: where each variable's items stand, a step
// with cells of its own, and the branch of an `if`.
#![tactic(auto)]

ghost use Rattle.std.specs.Prelude.{◌≡◌, cond, ◌-◌, ◌<◌, Some, Ok};
ghost use Rattle.meaning.specs.Catalogue.{catalogue_of};
ghost use Rattle.meaning.specs.World.{world_of};
ghost use Rattle.meaning.specs.Counted.{adding};
ghost use Rattle.step_parts.specs.Steps.{Known};
ghost use Rattle.stack.specs.Stack.{stood, Fit, Ends, At, Leaves, Lent};
ghost use Rattle.stack_records.specs.Arms.{stepped};
ghost use Rattle.working_parts.specs.Endings.{ending_at};
ghost use Rattle.working_parts.specs.Scopes.{Scoped, held, Bindable, scoping};

use codes::limits::ROWS;
use codes::refusals::Stop;
use codes::{Axis, Test};
use stack::Stood;

// Where each variable's items stand on the stack: from which cell on, and how many.
#[derive(Clone, Copy)]
pub struct Scope {
    pub starts: [usize; 8],
    pub lengths: [usize; 8],
}

// The scope with the items of some cells in a variable: an inner binding hides an outer one.
pub fn bound(scope: Scope, v: usize, start: usize, n: usize) -> Scope
    requires { v < 8 }
    ensures { result ≡ scoping scope (Some v) start n }
{
    let mut seen = scope;
    seen.starts[v] = start;
    seen.lengths[v] = n;
    seen
}

// The scope of the second of two operands, where n items of the first stand from `start` on.
pub fn inner(scope: Scope, binding: Option<usize>, start: usize, n: usize) -> Scope
    requires { Bindable binding }
    ensures { result ≡ scoping scope binding start n }
{
    match binding {
        None => scope,
        Some(v) => bound(scope, v, start, n),
    }
}

// QV: adds what the variable holds once more.
pub fn variable(
    scope: Scope,
    v: usize,
    at: usize,
    next: usize,
    work: &mut [i64],
    top: usize,
    room: usize,
) -> Result<Stood, Stop>
    requires { (v < 8) × Scoped top scope × Lent top room work.old }
    ensures { Leaves top room (adding (room - top) at 0 (held work.old scope v)) (At next)
        work.old work.new result }
{
    let start = scope.starts[v];
    let n = scope.lengths[v];
    stack::again(start, n, at, next, work, top, room)
}

// QX: the nodes that a step reaches, in the place of its items.
pub fn step(
    doc: &[u8],
    rows: usize,
    axis: Axis,
    test: Test,
    operand: Stood,
    at: usize,
    work: &mut [i64],
    top: usize,
    room: usize,
) -> Result<Stood, Stop>
    requires { Lent top room work.old × Fit top room (Ok operand) × Known doc.now rows }
    ensures { Leaves top room
        (stepped (world_of (catalogue_of doc.now rows)) (room - top) at axis test
        (stood work.old top (Ok operand)))
        (Ends (Ok operand)) work.old work.new result }
{
    let mut from = [false; ROWS];
    let mut to = [false; ROWS];
    stack_records::step(
        doc, rows, axis, test, operand, at, work, top, room, &mut from, &mut to,
    )
}

// The same items, their operand ending at `next`.
pub fn ending(answer: Stood, next: usize) -> Stood
    ensures { result ≡ ending_at next answer }
{
    Stood { next, ..answer }
}

// The first of two places, or the second.
pub fn selected(first: bool, a: usize, b: usize) -> usize
    ensures { result ≡ cond first a b }
{
    if first { a } else { b }
}
