// The rules of the translation within one iteration that come behind operands: the operators that a record, and the
// whole query, adds to those of its operands.
#![tactic(auto)]

ghost use Rattle.std.specs.Prelude.{◌≡◌, [], ◌∷◌, ◌+◌, ◌<◌, pos};
ghost use Rattle.meaning.specs.Translation.{Made, tail_s, tail_o, tail_c, tail_d, tail_x, tail_last};
ghost use Rattle.adding.specs.Ruled.{PenRoom, Wrote, Ruled};

use adding::{Operator, Output, Pen, add};
use codes::{Axis, Function, Test};
use writing::{Columns, Keys};

// QS, after its operands: attach 1 to a, 2 to b; union; number by p 0, keys 3, 1; project 0 4 2.
pub fn sequence_tail(plan: &mut [u8], pen: Pen, a: usize, b: usize, next: usize) -> Output
    requires { PenRoom pen 5 }
    ensures { Ruled (tail_s pen.operators a b) next plan.old pen plan.new result }
{
    let n = pen.operators;
    let p = add(plan, pen, Operator::Attach(a, 1));
    let q = add(plan, p, Operator::Attach(b, 2));
    let r = add(plan, q, Operator::Union(n, n + 1));
    let s = add(plan, r, Operator::Number(n + 2, 0, Keys::Two(3, 1)));
    let t = add(plan, s, Operator::Project(n + 3, Columns::Three(0, 4, 2)));
    Output {
        table: n + 4,
        pen: t,
        next,
    }
}

// QO, after its operands: no iteration twice in a, nor in b; join these 0 0; project 0 1 2 5; the function of 2 and 3;
// project 0 1 4.
pub fn function_tail(
    plan: &mut [u8],
    pen: Pen,
    f: Function,
    a: usize,
    b: usize,
    next: usize,
) -> Output
    requires { PenRoom pen 6 }
    ensures { Ruled (tail_o pen.operators f a b) next plan.old pen plan.new result }
{
    let n = pen.operators;
    let p = add(plan, pen, Operator::Once(a, 0));
    let q = add(plan, p, Operator::Once(b, 0));
    let r = add(plan, q, Operator::Join(n, 0, n + 1, 0));
    let s = add(plan, r, Operator::Project(n + 2, Columns::Four(0, 1, 2, 5)));
    let t = add(plan, s, Operator::Apply(n + 3, f, 2, 3));
    let u = add(plan, t, Operator::Project(n + 4, Columns::Three(0, 1, 4)));
    Output {
        table: n + 5,
        pen: u,
        next,
    }
}

// QC, after its operand: count by 0; project 0; l minus it; attach 0; union, counts first; attach 1; project 0 2 1.
pub fn count_tail(plan: &mut [u8], pen: Pen, l: usize, a: usize, next: usize) -> Output
    requires { PenRoom pen 7 }
    ensures { Ruled (tail_c pen.operators l a) next plan.old pen plan.new result }
{
    let n = pen.operators;
    let p = add(plan, pen, Operator::Counts(a, 0));
    let q = add(plan, p, Operator::Project(n, Columns::One(0)));
    let r = add(plan, q, Operator::Minus(l, n + 1));
    let s = add(plan, r, Operator::Attach(n + 2, 0));
    let t = add(plan, s, Operator::Union(n, n + 3));
    let u = add(plan, t, Operator::Attach(n + 4, 1));
    let v = add(plan, u, Operator::Project(n + 5, Columns::Three(0, 2, 1)));
    Output {
        table: n + 6,
        pen: v,
        next,
    }
}

// QD, after its operand: the value of 2; project 0 1 3.
pub fn data_tail(plan: &mut [u8], pen: Pen, a: usize, next: usize) -> Output
    requires { PenRoom pen 2 }
    ensures { Ruled (tail_d pen.operators a) next plan.old pen plan.new result }
{
    let n = pen.operators;
    let p = add(plan, pen, Operator::Value(a, 2));
    let q = add(plan, p, Operator::Project(n, Columns::Three(0, 1, 3)));
    Output {
        table: n + 1,
        pen: q,
        next,
    }
}

// QX, after its operand: project 0 2; the step; number p 0, key 1; project 0 2 1.
pub fn step_tail(plan: &mut [u8], pen: Pen, axis: Axis, test: Test, a: usize, next: usize) -> Output
    requires { PenRoom pen 4 }
    ensures { Ruled (tail_x pen.operators axis test a) next plan.old pen plan.new result }
{
    let n = pen.operators;
    let p = add(plan, pen, Operator::Project(a, Columns::Two(0, 2)));
    let q = add(plan, p, Operator::Step(n, axis, test));
    let r = add(plan, q, Operator::Number(n + 1, 0, Keys::One(1)));
    let s = add(plan, r, Operator::Project(n + 2, Columns::Three(0, 2, 1)));
    Output {
        table: n + 3,
        pen: s,
        next,
    }
}

// Last: number p 0, key 1; project 0 3 2.
pub fn last(plan: &mut [u8], pen: Pen, a: usize) -> Pen
    requires { PenRoom pen 2 }
    ensures { Wrote (tail_last pen.operators a) plan.old pen plan.new result }
{
    let n = pen.operators;
    let p = add(plan, pen, Operator::Number(a, 0, Keys::One(1)));
    add(plan, p, Operator::Project(n, Columns::Three(0, 3, 2)))
}
