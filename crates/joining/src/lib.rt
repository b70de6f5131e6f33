// The operator RJ: for each row of a table, each row of the other that holds an equal cell. Where the other's column
// climbs, a row looks only at the part of it that can join.
#![tactic(auto)]

pub mod pairs;

ghost use Rattle.std.specs.Prelude.{◌++◌, map, ◌+◌, ◌*◌, ◌≤◌, ◌<◌, length};
ghost use Rattle.cells.specs.Cell.{same};
ghost use Rattle.laws.specs.Lists.{filter};
ghost use Rattle.laws.specs.Rows.{row};
ghost use Rattle.laws.specs.Attempt.{gives};
ghost use Rattle.meaning.specs.Operators;
ghost use Rattle.meaning.specs.Operators.{Row, cell};
ghost use Rattle.tables.specs.Layout.{table_at, Inside, Owes};
ghost use Rattle.searching.specs.Narrowed.{Narrows};

use searching::Part;
use tables::order::climbs;
use tables::{Laid, Stand};

// The row at a joined with each row of u that has an equal cell, where all those stand in the part.
fn join_part(
    work: &mut [i64],
    a: usize,
    w: usize,
    c: usize,
    u: Stand,
    d: usize,
    part: Part,
    at: usize,
    room: usize,
) -> Laid
    requires w_bound { (a + w ≤ at) × (at ≤ room) × (room ≤ length work.old) }
    requires inside { Inside at u × (c < w) × (d < u.width) }
    requires narrows { Narrows work.old u d (cell (row work.old a w) c) part }
    ensures { Owes room at (w + u.width)
        (gives (map (λ (q : Row). row work.old a w ++ q)
        (filter (λ (q : Row). same (cell (row work.old a w) c) (cell q d)) (table_at work.old u))))
        work.old work.new result }
{
    let v = u.width;
    let b = u.at;
    let start = part.start;
    let end = part.end;
    let s = Stand {
        at: b + start * v,
        rows: end - start,
        width: v,
    };
    pairs::join_row(work, a, w, c, s, d, at, room)
}

// RJ of two tables, laid at `at`. It never fails. Where u's column climbs, a row of s takes the logarithm of how far
// its part of u lies from that of the row before, and then the rows of that part, so that two rising columns are gone
// through about once; else every row of s looks at every row of u.
pub fn join(
    work: &mut [i64],
    s: Stand,
    c: usize,
    u: Stand,
    d: usize,
    at: usize,
    room: usize,
) -> Laid
    requires { Inside at s × Inside at u × (at ≤ room) × (room ≤ length work.old)
        × (c < s.width) × (d < u.width) × (1 ≤ s.width) × (1 ≤ u.width) × (s.width + u.width ≤ 6) }
    ensures { Owes room at (s.width + u.width)
        (gives (Operators.join (table_at work.old s) c (table_at work.old u) d))
        work.old work.new result }
{
    let w = s.width;
    let v = u.width;
    let step = w + v;
    let climbing = climbs(work, u, d);
    let mut top = at;
    let mut n: usize = 0;
    let mut from: usize = 0;
    for i in 0..s.rows {
        let a = s.at + i * w;
        let x = work[a + c];
        let part = searching::search::part(work, u, d, x, climbing, from);
        let m = join_part(work, a, w, c, u, d, part, top, room)?;
        from = part.start;
        top += m * step;
        n += m;
    }
    Ok(n)
}
