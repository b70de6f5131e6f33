// The rules that make iterations or choose among them: QF and QI.
#![tactic(auto)]

ghost use Rattle.meaning.specs.Translation.{head_f, tail_f, head_i};
ghost use Rattle.adding.specs.Ruled.{PenRoom, Wrote, Ruled};
ghost use Rattle.scopes.specs.Choices.{choice};

use adding::{Operator, Output, Pen, add};
use writing::{Columns, Keys};

// QF, between its operands: number a, no p, keys 0, 1; attach 1; project 3 4 2, the variable; project 3, the new loop;
// project 0 3, the map.
pub fn for_head(plan: &mut [u8], pen: Pen, a: usize) -> Pen
    requires { PenRoom pen 5 }
    ensures { Wrote (head_f pen.operators a) plan.old pen plan.new result }
{
    let n = pen.operators;
    let p = add(plan, pen, Operator::Number(a, 255, Keys::Two(0, 1)));
    let q = add(plan, p, Operator::Attach(n, 1));
    let r = add(plan, q, Operator::Project(n + 1, Columns::Three(3, 4, 2)));
    let s = add(plan, r, Operator::Project(n, Columns::One(3)));
    add(plan, s, Operator::Project(n, Columns::Two(0, 3)))
}

// QF, after its operands: join 0 with map 1; number p 3, keys 0, 1; project 3 5 2.
pub fn for_tail(plan: &mut [u8], pen: Pen, b: usize, map: usize, next: usize) -> Output
    requires { PenRoom pen 3 }
    ensures { Ruled (tail_f pen.operators b map) next plan.old pen plan.new result }
{
    let n = pen.operators;
    let p = add(plan, pen, Operator::Join(b, 0, map, 1));
    let q = add(plan, p, Operator::Number(n, 3, Keys::Two(0, 1)));
    let r = add(plan, q, Operator::Project(n + 1, Columns::Three(3, 5, 2)));
    Output {
        table: n + 2,
        pen: r,
        next,
    }
}

// QI, after its condition: the truth of each group; select 1; project 0, the then-loop; l minus it, the else-loop.
pub fn if_head(plan: &mut [u8], pen: Pen, l: usize, c: usize) -> Pen
    requires { PenRoom pen 4 }
    ensures { Wrote (head_i pen.operators l c) plan.old pen plan.new result }
{
    let n = pen.operators;
    let p = add(plan, pen, Operator::Truths(c));
    let q = add(plan, p, Operator::Select(n, 1));
    let r = add(plan, q, Operator::Project(n + 1, Columns::One(0)));
    add(plan, r, Operator::Minus(l, n + 2))
}

// QI, after its operands: union.
pub fn if_tail(plan: &mut [u8], pen: Pen, a: usize, b: usize, next: usize) -> Output
    requires { PenRoom pen 1 }
    ensures { Ruled (choice pen.operators a b) next plan.old pen plan.new result }
{
    let n = pen.operators;
    let p = add(plan, pen, Operator::Union(a, b));
    Output {
        table: n,
        pen: p,
        next,
    }
}
