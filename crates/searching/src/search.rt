// The part of a table that a cell can join with.
ghost use Rattle.std.specs.Prelude.{◌≡◌, true, false, ◌+◌, ◌≤◌, ◌<◌, pos, length, get_or};
ghost use Rattle.meaning.specs.Operators.{column};
ghost use Rattle.tables.specs.Layout.{table_at, Inside};
ghost use Rattle.searching.specs.Narrowed.{passed, Front, Back, Narrows};
ghost use Rattle.tables.specs.Order.{climbs};

use crate::Part;
use tables::Stand;
use tables::order::cell_at;

// Whether the cell of row i stands before x; where `equal`, before it or equal to it.
fn passes(work: &[i64], u: Stand, d: usize, i: usize, x: i64, equal: bool) -> bool
    requires { Inside (length work.now) u × (d < u.width) × (i < u.rows) }
    ensures { result ≡ passed equal x (get_or (column (table_at work.now u) d) i (pos 0)) }
{
    let cell = cell_at(work, u, d, i);
    if equal {
        !cells::before(x, cell)
    } else {
        cells::before(cell, x)
    }
}

// The row to look at: a step past lo, and no further than half way to hi.
fn probe(lo: usize, hi: usize, step: usize) -> usize
    requires { lo < hi }
    ensures { (lo ≤ result) × (result < hi) }
{
    let half = (hi - lo) / 2;
    lo + step.min(half)
}

// The next step: twice as long and one more, up to the number of rows that a table can have.
fn longer(step: usize) -> usize {
    if step < 65536 { 2 * step + 1 } else { step }
}

// Where the rows that are passed end, between `from` and `to`: steps that grow until one goes too far, then halves.
// The turns are about twice the logarithm of how far from `from` the answer is.
fn search(work: &[i64], u: Stand, d: usize, x: i64, equal: bool, from: usize, to: usize) -> usize
    requires inside { Inside (length work.now) u × (d < u.width) × (from ≤ to) × (to ≤ u.rows) }
    requires d_value { climbs (column (table_at work.now u) d) ≡ true }
    requires front { Front equal x (column (table_at work.now u) d) from
        × Back equal x (column (table_at work.now u) d) to }
    ensures lower_bound { (from ≤ result) × (result ≤ to) }
    ensures front_2 { Front equal x (column (table_at work.now u) d) result
        × Back equal x (column (table_at work.now u) d) result }
{
    // As it is: the new form is no plainer. Each turn moves one of two bounds, and neither of them by one.
    let mut lo = from;
    let mut hi = to;
    let mut step: usize = 0;
    while lo < hi {
        let i = probe(lo, hi, step);
        if passes(work, u, d, i, x, equal) {
            lo = i + 1;
            step = longer(step);
            continue;
        }
        hi = i;
    }
    lo
}

// The first row whose cell does not stand before x, looked for on either side of the row `from`.
fn first(work: &[i64], u: Stand, d: usize, x: i64, from: usize) -> usize
    requires inside { Inside (length work.now) u × (d < u.width) × (from ≤ u.rows) }
    requires d_value { climbs (column (table_at work.now u) d) ≡ true }
    ensures { (result ≤ u.rows) × Front false x (column (table_at work.now u) d) result }
{
    let n = u.rows;
    if from < 1 {
        return search(work, u, d, x, false, 0, n);
    }
    let above = from - 1;
    if passes(work, u, d, above, x, false) {
        return search(work, u, d, x, false, from, n);
    }
    search(work, u, d, x, false, 0, above)
}

// The part of u whose column d holds x, where that column climbs; else all of u. The part is looked for from the row
// `from` on.
pub fn part(work: &[i64], u: Stand, d: usize, x: i64, climbing: bool, from: usize) -> Part
    requires inside { Inside (length work.now) u × (d < u.width) × (from ≤ u.rows) }
    requires climbing_value { climbing ≡ climbs (column (table_at work.now u) d) }
    ensures { Narrows work.now u d x result }
{
    let n = u.rows;
    if !climbing {
        return Part { start: 0, end: n };
    }
    let start = first(work, u, d, x, from);
    let end = search(work, u, d, x, true, start, n);
    Part {
        start: start,
        end: end,
    }
}
