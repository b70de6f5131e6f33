// What the row-wise operators RA, RP, RD, RS and RF do with one row.
#![tactic(auto)]

pub mod added;
pub mod search;

ghost use Rattle.std.specs.Prelude.{◌≡◌, [], ◌∷◌, ◌++◌, map, true, cond, ◌+◌, ◌≤◌, ◌<◌, length};
ghost use Rattle.cells.specs.Cell.{same, true_cell};
ghost use Rattle.laws.specs.Rows.{row};
ghost use Rattle.laws.specs.Attempt.{gives};
ghost use Rattle.meaning.specs.Operators.{cell};
ghost use Rattle.meaning.specs.Plan.{columns_at, columns};
ghost use Rattle.tables.specs.Layout.{Owes};

use tables::{Laid, Unlaid, copy};

// The row of width w at cell a, once more.
pub fn repeat(work: &mut [i64], a: usize, w: usize, at: usize, room: usize) -> Laid
    requires { (a + w ≤ at) × (at ≤ room) × (room ≤ length work.old) }
    ensures { Owes room at w (gives (row work.old a w ∷ [])) work.old work.new
        result }
{
    if room - at < w {
        return Err(Unlaid::Full);
    }
    copy(work, a, w, at);
    Ok(1)
}

// The row with one cell more.
pub fn attach(work: &mut [i64], a: usize, w: usize, cell: i64, at: usize, room: usize) -> Laid
    requires { (a + w ≤ at) × (at ≤ room) × (room ≤ length work.old) }
    ensures { Owes room at (w + 1) (gives ((row work.old a w ++ (cell ∷ [])) ∷ []))
        work.old work.new result }
{
    if room - at <= w {
        return Err(Unlaid::Full);
    }
    copy(work, a, w, at);
    work[at + w] = cell;
    Ok(1)
}

// The columns of the row that n bytes of the plan, from k on, name.
pub fn project(
    plan: &[u8],
    k: usize,
    n: usize,
    work: &mut [i64],
    a: usize,
    w: usize,
    at: usize,
    room: usize,
) -> Laid
    requires w_bound { (a + w ≤ at) × (at ≤ room) × (room ≤ length work.old) }
    requires n_in_bounds { (k + n ≤ length plan.now) × (columns w (columns_at plan.now k n) ≡ true) }
    ensures { Owes room at n
        (gives (map (cell (row work.old a w)) (columns_at plan.now k n) ∷ []))
        work.old work.new result }
{
    if room - at < n {
        return Err(Unlaid::Full);
    }
    for i in 0..n {
        let c = usize::from(plan[k + i]);
        work[at + i] = work[a + c];
    }
    Ok(1)
}

// The row, where its column c is true.
pub fn select(work: &mut [i64], a: usize, w: usize, c: usize, at: usize, room: usize) -> Laid
    requires { (a + w ≤ at) × (at ≤ room) × (room ≤ length work.old) × (c < w) }
    ensures { Owes room at w
        (gives (cond (same (cell (row work.old a w) c) true_cell) (row work.old a w ∷ []) []))
        work.old work.new result }
{
    if cells::same(work[a + c], 0x1_0000_0001) {
        repeat(work, a, w, at, room)
    } else {
        Ok(0)
    }
}
