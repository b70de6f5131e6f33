// The rules of the translation for records without operands: the operators that stand for a literal, a root and the
// empty sequence, once in each iteration.
#![tactic(auto)]

ghost use Rattle.meaning.specs.Translation.{rule_l, rule_r, rule_e};
ghost use Rattle.adding.specs.Ruled.{PenRoom, Ruled};

use adding::{Operator, Output, Pen, add};

// QL, QB: attach 1 to the loop's table l, attach the cell.
// As it is: (d) each rule is a list of operators, and those of two rules are alike by chance.
pub fn literal(plan: &mut [u8], pen: Pen, l: usize, cell: i64, next: usize) -> Output
    requires { PenRoom pen 2 }
    ensures { Ruled (rule_l pen.operators l cell) next plan.old pen plan.new result }
{
    let n = pen.operators;
    let p = add(plan, pen, Operator::Attach(l, 1));
    let q = add(plan, p, Operator::Attach(n, cell));
    Output {
        table: n + 1,
        pen: q,
        next,
    }
}

// QR: attach 1, the root of fragment k.
pub fn root(plan: &mut [u8], pen: Pen, l: usize, k: u8, next: usize) -> Output
    requires { PenRoom pen 2 }
    ensures { Ruled (rule_r pen.operators l k) next plan.old pen plan.new result }
{
    let n = pen.operators;
    let p = add(plan, pen, Operator::Attach(l, 1));
    let q = add(plan, p, Operator::Root(n, k));
    Output {
        table: n + 1,
        pen: q,
        next,
    }
}

// QE: attach 1, attach 0, that minus itself.
pub fn empty(plan: &mut [u8], pen: Pen, l: usize, next: usize) -> Output
    requires { PenRoom pen 3 }
    ensures { Ruled (rule_e pen.operators l) next plan.old pen plan.new result }
{
    let n = pen.operators;
    let p = add(plan, pen, Operator::Attach(l, 1));
    let q = add(plan, p, Operator::Attach(n, 0));
    let r = add(plan, q, Operator::Minus(n + 1, n + 1));
    Output {
        table: n + 2,
        pen: r,
        next,
    }
}
