// The variables that are carried into an operand that has a loop of its own: those free in it are lifted.
#![tactic(auto)]

ghost use Rattle.query_walks.specs.Parse.{parse};
ghost use Rattle.adding.specs.Ruled.{PenRoom};
ghost use Rattle.carrying.specs.Carried.{IntoBranch, IntoBody};

use adding::Pen;
use lifting::Lifted;

// Into a branch of QI whose loop is table l: the variables free in it, with columns 0, 1, 2.
pub fn into_branch(
    query: &[u8],
    at: usize,
    depth: usize,
    l: usize,
    tables: [usize; 8],
    pen: Pen,
    plan: &mut [u8],
) -> Lifted
    requires { PenRoom pen 16 }
    ensures { IntoBranch (parse depth query.now at) l tables plan.old pen plan.new result }
{
    let flags = query_walks::free(query, at, depth);
    lifting::lift(plan, pen, tables, flags, l, 0)
}

// Into the body of QF, whose variable v has table `own` and whose map is table `map`: the others free in it, with
// columns 4, 1, 2.
pub fn into_body(
    query: &[u8],
    at: usize,
    depth: usize,
    v: usize,
    own: usize,
    map: usize,
    tables: [usize; 8],
    pen: Pen,
    plan: &mut [u8],
) -> Lifted
    requires { PenRoom pen 16 }
    ensures { IntoBody (parse depth query.now at) v own map tables plan.old pen plan.new result }
{
    let others = lifting::hold(query_walks::free(query, at, depth), v, false);
    let lifted = lifting::lift(plan, pen, tables, others, map, 4);
    let outer = lifted.tables;
    let inner = lifting::hold(outer, v, own);
    let p = lifted.pen;
    Lifted {
        tables: inner,
        pen: p,
    }
}
