// A row with a cell that is worked out from it (RF).
ghost use Rattle.std.specs.Prelude.{[], ◌∷◌, ◌++◌, ◌+◌, ◌*◌, ◌≤◌, ◌<◌, length};
ghost use Rattle.laws.specs.Rows.{row};
ghost use Rattle.laws.specs.Attempt.{gives, attempt};
ghost use Rattle.meaning.specs.Catalogue.{catalogue_of};
ghost use Rattle.meaning.specs.Operators.{cell};
ghost use Rattle.meaning.specs.World;
ghost use Rattle.tables.specs.Layout.{Owes};

use crate::attach;
use codes::Function;
use tables::{Laid, Unlaid};

// The row with function f of its columns k and d.
pub fn apply(
    work: &mut [i64],
    a: usize,
    w: usize,
    f: Function,
    k: usize,
    d: usize,
    at: usize,
    room: usize,
) -> Laid
    requires { (a + w ≤ at) × (at ≤ room) × (room ≤ length work.old) × (k < w) × (d < w) }
    ensures { Owes room at (w + 1)
        (attempt (World.arith f (cell (row work.old a w) k) (cell (row work.old a w) d))
        (λ z. gives ((row work.old a w ++ (z ∷ [])) ∷ [])))
        work.old work.new result }
{
    let tried = items::arith(f, work[a + k], work[a + d]);
    let z = tried.ok_or(Unlaid::Fails)?;
    attach(work, a, w, z, at, room)
}

// The row with the value of its column k.
pub fn value(
    doc: &[u8],
    rows: usize,
    work: &mut [i64],
    a: usize,
    w: usize,
    k: usize,
    at: usize,
    room: usize,
) -> Laid
    requires w_bound { (a + w ≤ at) × (at ≤ room) × (room ≤ length work.old) × (k < w) }
    requires rows_in_bounds { 10 * rows ≤ length doc.now }
    ensures { Owes room at (w + 1)
        (attempt (World.value (catalogue_of doc.now rows) (cell (row work.old a w) k))
        (λ z. gives ((row work.old a w ++ (z ∷ [])) ∷ [])))
        work.old work.new result }
{
    let tried = items::value(doc, rows, work[a + k]);
    let z = tried.ok_or(Unlaid::Fails)?;
    attach(work, a, w, z, at, room)
}
