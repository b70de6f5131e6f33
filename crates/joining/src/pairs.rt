// A row joined with the rows of a table.
ghost use Rattle.std.specs.Prelude.{◌++◌, map, ◌+◌, ◌≤◌, ◌<◌, length};
ghost use Rattle.cells.specs.Cell.{same};
ghost use Rattle.laws.specs.Lists.{filter};
ghost use Rattle.laws.specs.Rows.{row};
ghost use Rattle.laws.specs.Attempt.{gives};
ghost use Rattle.meaning.specs.Operators.{Row, cell};
ghost use Rattle.tables.specs.Layout.{table_at, Inside, Owes};
ghost use Rattle.joining.specs.Joined.{join_one};

use tables::{Laid, Stand, Unlaid, copy};

// The rows at a and b joined, where column k of the one holds the cell of column d of the other.
fn join_pair(
    work: &mut [i64],
    a: usize,
    w: usize,
    k: usize,
    b: usize,
    v: usize,
    d: usize,
    at: usize,
    room: usize,
) -> Laid
    requires { (a + w ≤ at) × (b + v ≤ at) × (at ≤ room) × (room ≤ length work.old) × (k < w) × (d < v) }
    ensures { Owes room at (w + v)
        (join_one (row work.old a w) k d (row work.old b v))
        work.old work.new result }
{
    if !cells::same(work[a + k], work[b + d]) {
        return Ok(0);
    }
    if room - at < w + v {
        return Err(Unlaid::Full);
    }
    copy(work, a, w, at);
    copy(work, b, v, at + w);
    Ok(1)
}

// The row at a joined with each row of s that has an equal cell. Every row of s is looked at once.
pub fn join_row(
    work: &mut [i64],
    a: usize,
    w: usize,
    k: usize,
    s: Stand,
    d: usize,
    at: usize,
    room: usize,
) -> Laid
    requires w_bound { (a + w ≤ at) × (at ≤ room) × (room ≤ length work.old) }
    requires inside { Inside at s × (k < w) × (d < s.width) }
    ensures { Owes room at (w + s.width)
        (gives (map (λ (q : Row). row work.old a w ++ q)
        (filter (λ (q : Row). same (cell (row work.old a w) k) (cell q d)) (table_at work.old s))))
        work.old work.new result }
{
    let v = s.width;
    let mut top = at;
    let mut n: usize = 0;
    for i in 0..s.rows {
        let b = s.at + i * v;
        let m = join_pair(work, a, w, k, b, v, d, top, room)?;
        top += m * (w + v);
        n += m;
    }
    Ok(n)
}
