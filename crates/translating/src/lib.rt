// The work of the translator: the operators of a query's expressions, written over lent bytes.
#![tactic(auto)]

ghost use Rattle.std.specs.Prelude.{◌≡◌, get_or};
ghost use Rattle.meaning.specs.Query.{QS, QT, QF, QI, QO, QC, QD, QX};
ghost use Rattle.query_walks.specs.Parse.{parse};
ghost use Rattle.translating.specs.Translating.{Asked, AskedOne, AskedTwo, AskedThree, AskedBranch};
ghost use Rattle.translating.specs.Translating.{Makes, MakesOne, MakesTwo, MakesThree, MakesBranch};

use adding::{Output, Pen};
use codes::{Axis, Function, Test};
use query_records::Record;

// QV: the variable's table, and no operator.
fn variable(tables: [usize; 8], v: usize, pen: Pen, next: usize) -> Output
    ensures { result ≡ record { table = get_or tables v 0; pen = pen; next = next } }
{
    let table = lifting::table_of(tables, v);
    Output { table, pen, next }
}

// The plan of the expression at an offset, at most depth levels deep, under the loop's table l. An accepted query has
// an expression there.
// As it is: (a) recursion over operands by depth, and `let .. else` at a reader's answer, are forms of document 01.
#[cycle(apply_branch_choose_count_expression_for_each_let_in_sequence_step_values)]
pub fn expression(
    query: &[u8],
    at: usize,
    depth: usize,
    l: usize,
    tables: [usize; 8],
    pen: Pen,
    plan: &mut [u8],
) -> Output
    requires { Asked (parse depth query.now at) pen }
    ensures { Makes (parse depth query.now at) l tables plan.old pen plan.new
        result }
{
    let Some(found) = query_records::read(query, at) else {
        // never: an accepted query has a record here
        return variable(tables, 0, pen, at);
    };
    let kind = found.kind;
    let next = found.next;
    let left = depth - 1;
    match kind {
        Record::Literal(item) => leaf_rules::literal(plan, pen, l, cells::cell_of(item), next),
        Record::Empty => leaf_rules::empty(plan, pen, l, next),
        Record::Root(k) => leaf_rules::root(plan, pen, l, k as u8, next),
        Record::Variable(v) => variable(tables, v, pen, next),
        Record::Sequence => sequence(query, next, left, l, tables, pen, plan),
        Record::Let(v) => let_in(query, next, left, l, tables, pen, plan, v),
        Record::For(v) => for_each(query, next, left, l, tables, pen, plan, v),
        Record::If => choose(query, next, left, l, tables, pen, plan),
        Record::Apply(f) => apply(query, next, left, l, tables, pen, plan, f),
        Record::Count => count(query, next, left, l, tables, pen, plan),
        Record::Data => values(query, next, left, l, tables, pen, plan),
        Record::Step(axis, test) => step(query, next, left, l, tables, pen, plan, axis, test),
    }
}

// QS: a, b, then the rule's own operators.
#[cycle(apply_branch_choose_count_expression_for_each_let_in_sequence_step_values)]
fn sequence(
    query: &[u8],
    at: usize,
    depth: usize,
    l: usize,
    tables: [usize; 8],
    pen: Pen,
    plan: &mut [u8],
) -> Output
    requires { AskedTwo (QS 0) (parse depth query.now) at pen }
    ensures { MakesTwo (QS 0) (parse depth query.now) at l tables plan.old pen plan.new result }
{
    let a = expression(query, at, depth, l, tables, pen, plan);
    let p = a.pen;
    let b = expression(query, a.next, depth, l, tables, p, plan);
    let q = b.pen;
    rules::sequence_tail(plan, q, a.table, b.table, b.next)
}

// QO: a, b, then the rule's own operators.
#[cycle(apply_branch_choose_count_expression_for_each_let_in_sequence_step_values)]
fn apply(
    query: &[u8],
    at: usize,
    depth: usize,
    l: usize,
    tables: [usize; 8],
    pen: Pen,
    plan: &mut [u8],
    f: Function,
) -> Output
    requires { AskedTwo (QO 0 f) (parse depth query.now) at pen }
    ensures { MakesTwo (QO 0 f) (parse depth query.now) at l tables plan.old pen plan.new result }
{
    let a = expression(query, at, depth, l, tables, pen, plan);
    let p = a.pen;
    let b = expression(query, a.next, depth, l, tables, p, plan);
    let q = b.pen;
    rules::function_tail(plan, q, f, a.table, b.table, b.next)
}

// QT: a, then b with a's table for the variable.
#[cycle(apply_branch_choose_count_expression_for_each_let_in_sequence_step_values)]
fn let_in(
    query: &[u8],
    at: usize,
    depth: usize,
    l: usize,
    tables: [usize; 8],
    pen: Pen,
    plan: &mut [u8],
    v: usize,
) -> Output
    requires { AskedTwo (QT 0 v) (parse depth query.now) at pen }
    ensures { MakesTwo (QT 0 v) (parse depth query.now) at l tables plan.old pen plan.new result }
{
    let a = expression(query, at, depth, l, tables, pen, plan);
    let p = a.pen;
    let inner = lifting::hold(tables, v, a.table);
    expression(query, a.next, depth, l, inner, p, plan)
}

// QF: a, the variable with its loop and map, the others that are free in b lifted, b, then the rule's last operators.
#[cycle(apply_branch_choose_count_expression_for_each_let_in_sequence_step_values)]
fn for_each(
    query: &[u8],
    at: usize,
    depth: usize,
    l: usize,
    tables: [usize; 8],
    pen: Pen,
    plan: &mut [u8],
    v: usize,
) -> Output
    requires { AskedTwo (QF 0 v) (parse depth query.now) at pen }
    ensures { MakesTwo (QF 0 v) (parse depth query.now) at l tables plan.old pen plan.new result }
{
    let a = expression(query, at, depth, l, tables, pen, plan);
    let body = a.next;
    let p = a.pen;
    let m = p.operators;
    let q = scopes::for_head(plan, p, a.table);
    let carried = carrying::into_body(query, body, depth, v, m + 2, m + 4, tables, q, plan);
    let inner = carried.tables;
    let s = carried.pen;
    let b = expression(query, body, depth, m + 3, inner, s, plan);
    let t = b.pen;
    scopes::for_tail(plan, t, b.table, m + 4, b.next)
}

// QI: c, its two loops, then each branch under its own loop with the variables free in it lifted, then the union.
#[cycle(apply_branch_choose_count_expression_for_each_let_in_sequence_step_values)]
fn choose(
    query: &[u8],
    at: usize,
    depth: usize,
    l: usize,
    tables: [usize; 8],
    pen: Pen,
    plan: &mut [u8],
) -> Output
    requires { AskedThree (QI 0) (parse depth query.now) at pen }
    ensures { MakesThree (QI 0) (parse depth query.now) at l tables plan.old pen plan.new result }
{
    let c = expression(query, at, depth, l, tables, pen, plan);
    let p = c.pen;
    let m = p.operators;
    let q = scopes::if_head(plan, p, l, c.table);
    let a = branch(query, c.next, depth, m + 2, tables, q, plan);
    let s = a.pen;
    let b = branch(query, a.next, depth, m + 3, tables, s, plan);
    let t = b.pen;
    scopes::if_tail(plan, t, a.table, b.table, b.next)
}

// A branch of QI under its own loop: the variables free in it are lifted, then it is translated.
#[cycle(apply_branch_choose_count_expression_for_each_let_in_sequence_step_values)]
fn branch(
    query: &[u8],
    at: usize,
    depth: usize,
    l: usize,
    tables: [usize; 8],
    pen: Pen,
    plan: &mut [u8],
) -> Output
    requires { AskedBranch (parse depth query.now at) pen }
    ensures { MakesBranch (parse depth query.now at) l tables plan.old pen plan.new result }
{
    let carried = carrying::into_branch(query, at, depth, l, tables, pen, plan);
    let inner = carried.tables;
    let p = carried.pen;
    expression(query, at, depth, l, inner, p, plan)
}

// QC: a, then the rule's own operators.
#[cycle(apply_branch_choose_count_expression_for_each_let_in_sequence_step_values)]
fn count(
    query: &[u8],
    at: usize,
    depth: usize,
    l: usize,
    tables: [usize; 8],
    pen: Pen,
    plan: &mut [u8],
) -> Output
    requires { AskedOne (QC 0) (parse depth query.now at) pen }
    ensures { MakesOne (QC 0) (parse depth query.now at) l tables plan.old pen plan.new result }
{
    let a = expression(query, at, depth, l, tables, pen, plan);
    let p = a.pen;
    rules::count_tail(plan, p, l, a.table, a.next)
}

// QD: a, then the rule's own operators.
#[cycle(apply_branch_choose_count_expression_for_each_let_in_sequence_step_values)]
fn values(
    query: &[u8],
    at: usize,
    depth: usize,
    l: usize,
    tables: [usize; 8],
    pen: Pen,
    plan: &mut [u8],
) -> Output
    requires { AskedOne (QD 0) (parse depth query.now at) pen }
    ensures { MakesOne (QD 0) (parse depth query.now at) l tables plan.old pen plan.new result }
{
    let a = expression(query, at, depth, l, tables, pen, plan);
    let p = a.pen;
    rules::data_tail(plan, p, a.table, a.next)
}

// QX: a, then the rule's own operators.
#[cycle(apply_branch_choose_count_expression_for_each_let_in_sequence_step_values)]
fn step(
    query: &[u8],
    at: usize,
    depth: usize,
    l: usize,
    tables: [usize; 8],
    pen: Pen,
    plan: &mut [u8],
    axis: Axis,
    test: Test,
) -> Output
    requires { AskedOne (QX 0 axis test) (parse depth query.now at) pen }
    ensures { MakesOne (QX 0 axis test) (parse depth query.now at) l tables plan.old pen
        plan.new result }
{
    let a = expression(query, at, depth, l, tables, pen, plan);
    let p = a.pen;
    rules::step_tail(plan, p, axis, test, a.table, a.next)
}
