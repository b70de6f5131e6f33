// A plan's operators added one by one, as the rules of the translation add them.
#![tactic(auto)]

ghost use Rattle.std.specs.Prelude.{◌≡◌, [], ◌∷◌, ◌+◌, ◌^◌, ◌<◌};
ghost use Rattle.meaning.specs.Written.{operator_bytes};
ghost use Rattle.pen.specs.Penned.{Pens};
ghost use Rattle.adding.specs.Ruled.{operator_of, PenRoom, Wrote};

use codes::{Axis, Function, Test};
use writing::{Columns, Keys};

// Where writing stands: the number of the next operator, and the position of its first byte.
#[derive(Clone, Copy)]
pub struct Pen {
    pub operators: usize,
    pub at: usize,
}

// What the translation of an expression leaves: the number of its result's table, where writing stands, and the offset
// after the expression.
#[derive(Clone, Copy)]
pub struct Output {
    pub table: usize,
    pub pen: Pen,
    pub next: usize,
}

// An operator of a plan.
#[derive(Clone, Copy)]
pub enum Operator {
    First,
    Attach(usize, i64),
    Project(usize, Columns),
    Union(usize, usize),
    Minus(usize, usize),
    Select(usize, u8),
    Join(usize, u8, usize, u8),
    Number(usize, u8, Keys),
    Apply(usize, Function, u8, u8),
    Value(usize, u8),
    Counts(usize, u8),
    Truths(usize),
    Once(usize, u8),
    Step(usize, Axis, Test),
    Root(usize, u8),
}

// Writes one operator at a position; the position after it.
#[tactic(auto, unfolding(crate::specs::Ruled::operator_of))]
fn write(plan: &mut [u8], at: usize, operator: Operator) -> usize
    requires { at + 16 < 2 ^ 64 }
    ensures { Pens at (operator_bytes (operator_of operator)) plan.old plan.new result }
{
    match operator {
        Operator::First => writing::one(plan, at),
        Operator::Attach(t, cell) => writing::attach(plan, at, t, cell),
        Operator::Project(t, columns) => writing::project(plan, at, t, columns),
        Operator::Union(t, u) => writing::union(plan, at, t, u),
        Operator::Minus(t, u) => writing::minus(plan, at, t, u),
        Operator::Select(t, c) => writing::select(plan, at, t, c),
        Operator::Join(t, c, u, d) => writing::join(plan, at, t, c, u, d),
        Operator::Number(t, p, keys) => writing::number(plan, at, t, p, keys),
        Operator::Apply(t, f, c, d) => writing::apply(plan, at, t, f, c, d),
        Operator::Value(t, c) => writing::value(plan, at, t, c),
        Operator::Counts(t, c) => writing::counts(plan, at, t, c),
        Operator::Truths(t) => writing::truths(plan, at, t),
        Operator::Once(t, c) => writing::once(plan, at, t, c),
        Operator::Step(t, axis, test) => writing::step(plan, at, t, axis, test),
        Operator::Root(t, k) => writing::root(plan, at, t, k),
    }
}

// Adds one operator to the plan.
pub fn add(plan: &mut [u8], pen: Pen, operator: Operator) -> Pen
    requires { PenRoom pen 1 }
    ensures { Wrote (operator_of operator ∷ []) plan.old pen plan.new result }
{
    let at = pen.at;
    let after = write(plan, at, operator);
    Pen {
        operators: pen.operators + 1,
        at: after,
    }
}
