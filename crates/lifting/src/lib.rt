// The table of each variable, and the variables that a rule lifts: those that are free in an operand, joined to its
// iterations.
#![tactic(auto)]

ghost use Rattle.std.specs.Prelude.{◌≡◌, [], ◌∷◌, ◌<◌, get_or, set};
ghost use Rattle.adding.specs.Ruled.{PenRoom};
ghost use Rattle.lifting.specs.Lifts.{Lifts, flagged};

use adding::{Operator, Pen, add};
use writing::Columns;

// What lifting leaves: the variables' tables, and where writing stands.
#[derive(Clone, Copy)]
pub struct Lifted {
    pub tables: [usize; 8],
    pub pen: Pen,
}

// The table of a variable; there is none past the eighth.
pub fn table_of(tables: [usize; 8], v: usize) -> usize
    ensures { result ≡ get_or tables v 0 }
{
    tables.get(v).copied().unwrap_or(0)
}

// A row, of tables or of flags, with another value for a variable.
// As it is: (d) `if let Some(held) = row.get_mut(v)` is no plainer; no crate below both this and the flags holds rows.
pub fn hold<T: Copy>(mut row: [T; 8], v: usize, value: T) -> [T; 8]
    ensures { result ≡ set row v value }
{
    if v < 8 {
        row[v] = value;
    }
    row
}

// Lifts a variable: its table is joined with column 0 of table m; its columns `first`, 1, 2 are kept.
fn lift_one(plan: &mut [u8], pen: Pen, tables: [usize; 8], v: usize, m: usize, first: u8) -> Lifted
    requires { PenRoom pen 2 × (v < 8) }
    ensures { Lifts tables m (first ∷ 1 ∷ 2 ∷ []) (v ∷ []) plan.old pen plan.new result }
{
    let n = pen.operators;
    let p = add(plan, pen, Operator::Join(tables[v], 0, m, 0));
    let q = add(plan, p, Operator::Project(n, Columns::Three(first, 1, 2)));
    let row = hold(tables, v, n + 1);
    Lifted {
        tables: row,
        pen: q,
    }
}

// Lifts every variable whose flag is set, by rising number.
pub fn lift(
    plan: &mut [u8],
    pen: Pen,
    tables: [usize; 8],
    flags: [bool; 8],
    m: usize,
    first: u8,
) -> Lifted
    requires { PenRoom pen 16 }
    ensures { Lifts tables m (first ∷ 1 ∷ 2 ∷ []) (flagged flags 8) plan.old pen plan.new
        result }
{
    let mut done = Lifted { tables, pen };
    for v in 0..8 {
        if flags[v] {
            let p = done.pen;
            let row = done.tables;
            done = lift_one(plan, p, row, v, m, first);
        }
    }
    done
}
