// Groups by first appearance: where one opens, and the part of the table that has all its rows.
#![tactic(auto)]

ghost use Rattle.std.specs.Prelude.{◌≡◌, true, ◌+◌, ◌*◌, ◌-◌, ◌≤◌, ◌<◌, length};
ghost use Rattle.cells.specs.Cell;
ghost use Rattle.meaning.specs.Operators.{column, group_of};
ghost use Rattle.tables.specs.Layout.{table_at, Inside};
ghost use Rattle.tables.specs.Order;
ghost use Rattle.members.specs.Grouped;

use tables::Stand;
pub use tables::order::cell_at;
use tables::order::{holds, occurs};

// Whether row i opens a group: its cell of column c stands in no row above. Where the column climbs (`up`) only the
// row just above is asked, else each of them.
pub fn opens(work: &[i64], s: Stand, c: usize, up: bool, i: usize) -> bool
    requires inside { Inside (length work.now) s × (c < s.width) × (i < s.rows) }
    requires up_value { up ≡ Order.climbs (column (table_at work.now s) c) }
    ensures { result ≡ Grouped.opening (table_at work.now s) c i }
{
    if i == 0 {
        return true;
    }
    let cell = cell_at(work, s, c, i);
    if up {
        return !holds(work, s, c, i - 1, cell);
    }
    let above = Stand { rows: i, ..s };
    !occurs(work, cell, above, c)
}

// How many rows, from the first on, hold the first row's cell of column c. Those rows are looked at once.
fn run(work: &[i64], s: Stand, c: usize) -> usize
    requires { Inside (length work.now) s × (c < s.width) × (0 < s.rows) }
    ensures { (result ≤ s.rows) × (result ≡ Grouped.leading
        (Cell.same (Grouped.in_front (table_at work.now s) c)) (column (table_at work.now s) c)) }
{
    let x = cell_at(work, s, c, 0);
    for i in 0..s.rows {
        if !holds(work, s, c, i, x) {
            return i;
        }
    }
    s.rows
}

// The part of the table, from row i on, that has all rows of the group that row i opens: the rows that hold its cell,
// where the column climbs, else all that are left.
pub fn part(work: &[i64], s: Stand, c: usize, up: bool, i: usize) -> Stand
    requires inside { Inside (length work.now) s × (c < s.width) × (i < s.rows) }
    requires up_value { up ≡ Order.climbs (column (table_at work.now s) c) }
    requires i_value { Grouped.opening (table_at work.now s) c i ≡ true }
    ensures { (result.at + result.rows * result.width ≤ s.at + s.rows * s.width) × (result.width ≡ s.width)
        × (0 < result.rows)
        × (Grouped.in_front (table_at work.now result) c ≡ Order.cell_at (table_at work.now s) c i)
        × (group_of (table_at work.now result) c (Order.cell_at (table_at work.now s) c i)
        ≡ group_of (table_at work.now s) c (Order.cell_at (table_at work.now s) c i)) }
{
    let left = Stand {
        at: s.at + i * s.width,
        rows: s.rows - i,
        ..s
    };
    if !up {
        return left;
    }
    Stand {
        rows: run(work, left, c),
        ..left
    }
}
