// The cells of a column, set against each other.
ghost use Rattle.std.specs.Prelude.{◌≡◌, ◌<◌, length};
ghost use Rattle.cells.specs.Cell.{same, before};
ghost use Rattle.laws.specs.Lists.{any};
ghost use Rattle.meaning.specs.Operators;
ghost use Rattle.tables.specs.Layout.{table_at, Inside};
ghost use Rattle.tables.specs.Order;

use crate::Stand;

// Column c of row i.
pub fn cell_at(work: &[i64], s: Stand, c: usize, i: usize) -> i64
    requires { Inside (length work.now) s × (c < s.width) × (i < s.rows) }
    ensures { result ≡ Order.cell_at (table_at work.now s) c i }
{
    work[s.at + i * s.width + c]
}

// Whether the cell of row i stands before that of row j, in column c.
pub fn precedes(work: &[i64], s: Stand, c: usize, i: usize, j: usize) -> bool
    requires { Inside (length work.now) s × (c < s.width) × (i < s.rows) × (j < s.rows) }
    ensures { result ≡ before (Order.cell_at (table_at work.now s) c i) (Order.cell_at (table_at work.now s) c j) }
{
    cells::before(cell_at(work, s, c, i), cell_at(work, s, c, j))
}

// Whether row i holds a cell in column c.
pub fn holds(work: &[i64], s: Stand, c: usize, i: usize, cell: i64) -> bool
    requires { Inside (length work.now) s × (c < s.width) × (i < s.rows) }
    ensures { result ≡ same cell (Order.cell_at (table_at work.now s) c i) }
{
    cells::same(cell, cell_at(work, s, c, i))
}

// Whether each cell of column c stands before the one below it. Each row is looked at once.
pub fn rises(work: &[i64], s: Stand, c: usize) -> bool
    requires { Inside (length work.now) s × (c < s.width) }
    ensures { result ≡ Order.rises (Operators.column (table_at work.now s) c) }
{
    for i in 1..s.rows {
        if !precedes(work, s, c, i - 1, i) {
            return false;
        }
    }
    true
}

// Whether each cell of column c is equal to or before the one below it. Each row is looked at once.
pub fn climbs(work: &[i64], s: Stand, c: usize) -> bool
    requires { Inside (length work.now) s × (c < s.width) }
    ensures { result ≡ Order.climbs (Operators.column (table_at work.now s) c) }
{
    // As it is: the new form is no plainer. One loop for this and `rises` needs a closure, and a contract on it.
    for i in 1..s.rows {
        let falls = precedes(work, s, c, i, i - 1);
        if falls {
            return false;
        }
    }
    true
}

// Whether some row holds a cell in column c. Each row is looked at once.
pub fn occurs(work: &[i64], cell: i64, s: Stand, c: usize) -> bool
    requires { Inside (length work.now) s × (c < s.width) }
    ensures { result ≡ any (same cell) (Operators.column (table_at work.now s) c) }
{
    for i in 0..s.rows {
        if holds(work, s, c, i, cell) {
            return true;
        }
    }
    false
}
