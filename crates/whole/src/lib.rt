// The operators that take tables whole: RT, RU, RK and RO.
#![tactic(auto)]

pub mod once;

ghost use Rattle.std.specs.Prelude.{◌≡◌, [], ◌∷◌, ◌++◌, ◌+◌, ◌*◌, ◌≤◌, ◌<◌, pos, length};
ghost use Rattle.laws.specs.Attempt.{gives};
ghost use Rattle.meaning.specs.Catalogue.{catalogue_of};
ghost use Rattle.meaning.specs.Operators.{rooted};
ghost use Rattle.meaning.specs.World.{world_of};
ghost use Rattle.tables.specs.Layout.{table_at, Inside, Owes};

use rowwise::Task;
use rowwise::each::rowwise;
use tables::{Laid, Stand, Unlaid, copy};

// RT: one row of one cell, 1.
pub fn one(work: &mut [i64], at: usize, room: usize) -> Laid
    requires { (at ≤ room) × (room ≤ length work.old) }
    ensures { Owes room at 1 (gives ((pos 1 ∷ []) ∷ [])) work.old work.new result }
{
    if room <= at {
        return Err(Unlaid::Full);
    }
    work[at] = 1;
    Ok(1)
}

// A table once more. Each of its cells is copied once.
pub fn again(work: &mut [i64], s: Stand, at: usize, room: usize) -> Laid
    requires { Inside at s × (at ≤ room) × (room ≤ length work.old) }
    ensures { Owes room at s.width (gives (table_at work.old s))
        work.old work.new result }
{
    let cells = s.rows * s.width;
    if room - at < cells {
        return Err(Unlaid::Full);
    }
    copy(work, s.at, cells, at);
    Ok(s.rows)
}

// RU: the rows of t, then those of u. Each of their cells is copied once.
pub fn union(work: &mut [i64], t: Stand, u: Stand, at: usize, room: usize) -> Laid
    requires inside { Inside at t × Inside at u × (at ≤ room) × (room ≤ length work.old) }
    requires le_width { (1 ≤ t.width) × (t.width ≡ u.width) }
    ensures { Owes room at t.width (gives (table_at work.old t ++ table_at work.old u))
        work.old work.new result }
{
    let n = again(work, t, at, room)?;
    let m = again(work, u, at + n * t.width, room)?;
    Ok(n + m)
}

// RO: adds the cell of fragment k's root, which is looked for where t has a row. One look through the catalogue; each
// row is copied once.
pub fn root(
    plan: &[u8],
    doc: &[u8],
    rows: usize,
    work: &mut [i64],
    t: Stand,
    k: usize,
    at: usize,
    room: usize,
) -> Laid
    requires inside { Inside at t × (at ≤ room) × (room ≤ length work.old) × (t.width + 1 ≤ 6) }
    requires rows_in_bounds { (10 * rows ≤ length doc.now) × (rows < 65536) × (1 ≤ k) }
    ensures { Owes room at (t.width + 1)
        (rooted (world_of (catalogue_of doc.now rows)) (table_at work.old t) k)
        work.old work.new result }
{
    if t.rows == 0 {
        return Ok(0);
    }
    let tried = items::root(doc, rows, k);
    let z = tried.ok_or(Unlaid::Fails)?;
    rowwise(plan, doc, rows, work, t, Task::Attach(z), at, room)
}
